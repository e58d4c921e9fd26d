//! The candidates of contours, and the cells of meshes, in two lists, inside and outside. `specs/OddMasks` says which masks
//! of candidates are odd, `specs/RegionParities` what is told of all masks of a region at once, and `specs/Splits` what the
//! lists are and that a free point is odd exactly where its mask is. `specs/CellSplits` says the same of cells, and
//! `specs/SideMasks` what equal masks tell. `specs/JointMasks` has the laws of two boundaries over the table of both.
#![tactic(auto)]

mod arc_sides;
mod classify_candidates;
mod classify_cells;
mod flips;
pub mod laws;
mod odd_mask;
mod region_parity;
mod split2;
mod split3;

pub use classify_candidates::{classify2, parities_of};
pub use classify_cells::classify3;
pub use odd_mask::odd_mask2;
pub use region_parity::RegionParity;
pub use split2::{Marked2, Split2};
pub use split3::{Marked3, Split3};
