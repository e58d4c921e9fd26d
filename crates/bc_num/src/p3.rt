//! A rational point of space: three numbers over one denominator above 0. `fractions` brings it to lowest terms, and
//! `specs/Points` says when two are the same point.
ghost use Rattle.std.specs.Prelude.{pos, ◌<ℤ◌};

/// The rational point `(x / w, y / w, z / w)` of space. `w` is at least 1. Each point has many such forms, and `==`
/// compares the numbers and not the points.
#[derive(Clone, Copy, Debug, PartialEq, Eq)]
pub struct P3 {
    pub x: i128,
    pub y: i128,
    pub z: i128,
    pub w: i128,
    pub ghost positive: { pos 0 <ℤ w },
}
