//! Prisms: layers of contours, each between two heights, read from one text and written as one. `specs/` says which sections a
//! text has and what its first fault is, where layers hold, and which texts spell them.
#![tactic(auto)]

mod fault;
pub mod laws;
mod layer;
mod overlaps;
mod row;
mod sections;
mod write;

pub use fault::LayerFault;
pub use layer::{Layer, Section};
pub use sections::read_layers;
pub use write::prisms;
