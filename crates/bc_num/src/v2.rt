//! A place or a vector of the plane by two whole numbers. A rational point of the plane is in `p2`, and the same of
//! space in `v3`.

/// A place or a vector of the plane with whole coordinates. Any numbers are allowed; each call says
/// how large they may be.
#[derive(Clone, Copy, Debug, PartialEq, Eq, Hash)]
pub struct V2 {
    pub x: i64,
    pub y: i64,
}
