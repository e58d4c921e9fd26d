//! The carving of a boundary: pieces over its half-spaces that hold its inside masks and no outside mask, and their tree.
//! `specs/` says what such a tree is of any kind of boundary.
#![tactic(auto)]

mod pieces;

pub use pieces::{carved_formula_of, pieces_of};
