//! What contours are made of: edges and arcs.
use bc_num::V2;

/// A part of a plane contour: a straight edge, or an arc round `c`, counter-clockwise or clockwise as seen with x to
/// the right and y up. Both lead from `a` to `b`; an arc with `a = b` is a full circle.
#[derive(Clone, Copy, Debug, PartialEq, Eq)]
pub enum Element {
    Edge { a: V2, b: V2 },
    Arc { a: V2, b: V2, c: V2, ccw: bool },
}
