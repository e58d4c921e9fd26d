//! Meshes, read from a text in Geomview's OFF with this project's profile. `specs/` says by the rows of words which mesh a
//! text says, and what its first fault is.
#![tactic(auto)]

mod entries;
mod faces;
mod fault;
mod header;
pub mod laws;
mod read;
mod rows;
mod vertices;

pub use fault::OffFault;
pub use read::read_off;
