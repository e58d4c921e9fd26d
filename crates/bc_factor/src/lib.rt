//! Factored trees: a literal that several terms of a cover share is written once, round what is left of these terms.
//! `specs/Factored` says which tree it is, and `laws` says it once more, group by group.
#![tactic(auto)]

mod build;
pub mod laws;
mod literal;
mod shared;
mod split;

pub use build::factor;
