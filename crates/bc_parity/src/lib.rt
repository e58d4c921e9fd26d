//! How often the downward ray from a point crosses a boundary, and the laws of whether that is odd: the elements
//! of plane contours, and the faces of closed meshes.
#![tactic(auto)]

mod arc_crossings;
mod edge_crossings;
mod face_crossings;
mod face_queries;
pub mod laws;
mod numbers;
mod order;
mod queries;

pub use face_queries::{odd3, on_edge3};
pub use queries::{odd2, on_edge2, straight_odd2};
