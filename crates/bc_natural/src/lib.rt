//! The half-spaces that inputs induce, each once, and the boxes of inputs: lines and discs of contours, and planes of
//! meshes. `specs/Curves` and `specs/Planes` say what the tables of the half-spaces are, over `specs/Distinct`;
//! `specs/Masks` what a table of curves tells of a point; and `specs/Limits` and `specs/Planes` which tables are within the
//! limits, the constants of `src/limits.rt`. `specs/Noted` and `specs/Spans` have the words of this crate's own steps.
//! `proofs/Table` and `proofs/PlaneTables` have the lemmas for the crates above: which lines, discs and planes a table has.
#![tactic(auto)]

mod bounds2;
mod bounds3;
mod corners;
mod curve_table;
mod gather_curves;
mod gather_planes;
mod limits;
mod nat_fault;
mod plane_table;
mod span;

pub use bounds2::box2;
pub use bounds3::box3;
pub use curve_table::CurveTable;
pub use gather_curves::curves;
pub use gather_planes::planes;
pub use limits::{MOST_DISCS, MOST_LINES, MOST_PLANES};
pub use nat_fault::NatFault;
pub use plane_table::PlaneTable;
