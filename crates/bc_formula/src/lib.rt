//! The formula of a boundary: its half-spaces divide its box, the masks of what is inside are covered by terms, and the tree
//! of these terms means the boundary. Its notes name points that show that no part of it is idle. `specs/Headline` says what a
//! formula and its text mean, of any kind of boundary.
#![tactic(auto)]

pub mod contours;
mod masks;
pub mod meshes;
mod part_counts;
mod tally;
mod terms;

pub use contours::{contour_division, contour_formula};
pub use masks::Masks;
pub use meshes::{mesh_division, mesh_formula};
pub use part_counts::{PartCounts, contour_part_counts};
pub use terms::{Division, Formula, Parts, formula_of, terms_of};
