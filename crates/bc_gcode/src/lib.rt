//! Contours of the plane, read from a text of RS274/NGC words in this project's profile. `specs/` says by blocks which
//! contours a text leads to, and what its first fault is.
#![tactic(auto)]

mod block;
mod fault;
pub mod laws;
mod moves;
mod program;
mod read;
mod words;

pub use fault::GFault;
pub use read::read_contours;
