//! Two boundaries combined: the masks of cells, or of candidates, in two lists, by what an operation says of the parities of
//! both. `specs/Combined` says when an operation is true, and what the lists are.
#![tactic(auto)]

mod combine_candidates;
mod combine_cells;
mod op;

pub use combine_candidates::combine2;
pub use combine_cells::combine3;
pub use op::Op;
