//! A box of space along the axes by whole numbers, with each least number below the greatest. `box2` has the box of the
//! plane.
ghost use Rattle.std.specs.Prelude.{◌<ℤ◌};

/// A box along the axes, from its least corner `(x0, y0, z0)` to its greatest `(x1, y1, z1)`. Each least number is
/// below the greatest.
#[derive(Clone, Copy, Debug, PartialEq, Eq)]
pub struct Box3 {
    pub x0: i64,
    pub y0: i64,
    pub z0: i64,
    pub x1: i64,
    pub y1: i64,
    pub z1: i64,
    pub ghost wide: { x0 <ℤ x1 },
    pub ghost deep: { y0 <ℤ y1 },
    pub ghost high: { z0 <ℤ z1 },
}
