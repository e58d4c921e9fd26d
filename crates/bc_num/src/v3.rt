//! A place or a vector of space by three whole numbers. A rational point of space is in `p3`, and the same of the
//! plane in `v2`.

/// A place or a vector of space with whole coordinates. Any numbers are allowed; each call says
/// how large they may be.
#[derive(Clone, Copy, Debug, PartialEq, Eq, Hash)]
pub struct V3 {
    pub x: i64,
    pub y: i64,
    pub z: i64,
}
