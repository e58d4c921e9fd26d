//! Masks of cells in two lists, inside and outside, each mask with a point. `classify_cells` makes the lists for a
//! mesh, and `specs/CellSplits` says what they are.

use bc_num::{List, P3};

/// The mask of a cell: bit i stands for plane i.
#[derive(Clone, Copy, Debug)]
pub struct Marked3 {
    pub mask: u64,
    /// A point with this mask.
    pub inner: P3,
}

/// The masks inside and outside, each list in the order of the cells.
#[derive(Debug, Drop)]
pub struct Split3 {
    pub inside: List<Marked3>,
    pub outside: List<Marked3>,
}
