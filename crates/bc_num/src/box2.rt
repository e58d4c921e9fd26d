//! A rectangle along the axes by whole numbers, with each least number below the greatest. `box3` has the box of space.
ghost use Rattle.std.specs.Prelude.{◌<ℤ◌};

/// A rectangle along the axes, from its least corner `(x0, y0)` to its greatest `(x1, y1)`. Each least number is
/// below the greatest.
#[derive(Clone, Copy, Debug, PartialEq, Eq)]
pub struct Box2 {
    pub x0: i64,
    pub y0: i64,
    pub x1: i64,
    pub y1: i64,
    pub ghost wide: { x0 <ℤ x1 },
    pub ghost high: { y0 <ℤ y1 },
}
