//! The state between two blocks: what the blocks so far have made, and what the next one goes on from. `read` begins
//! with it and ends it, and `moves` changes it.

use crate::block::Motion;
use bc_num::{List, V2};
use bc_solid::Element;

/// A program between two blocks: the position, the motion mode, the contour that is not closed yet, the closed ones, and
/// how many elements there are in all.
#[derive(Drop)]
pub struct Program {
    pub position: V2,
    pub motion: Option<Motion>,
    pub contour: List<Element>,
    pub contours: List<List<Element>>,
    pub count: usize,
}
