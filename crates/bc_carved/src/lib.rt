//! The tree of a carving: each piece is an intersection of half-spaces, of which half-spaces and holes are taken away, and the
//! block stands round the whole. `specs/Carved` says which tree it is, `specs/Meanings` where it holds, and `specs/Parts` which
//! numbers the nodes of its parts have.
#![tactic(auto)]

mod build;
pub mod laws;
mod places;

pub use build::carved_tree;
pub use places::places_of;
