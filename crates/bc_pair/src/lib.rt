//! Two texts in one stream, with a line `====` between them. `split_parts` cuts the stream into its two parts, each a slice
//! of the lent text: nothing is copied, and no memory is taken. `specs/Parts` says what the parts are.
#![tactic(auto)]

pub mod laws;
mod split;

pub use split::{NoPart, Parts, split_parts};
