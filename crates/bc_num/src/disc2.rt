//! A disc of the plane by its whole centre and its squared radius, so that no root is taken.
ghost use Rattle.std.specs.Prelude.{pos, ◌<ℤ◌};

use crate::V2;

/// The exact disc of squared radius `r2` round `c`, in squares of the unit of coordinates. `r2` is at least 1, and the
/// radius itself need not be whole.
#[derive(Clone, Copy, Debug, PartialEq, Eq, Hash)]
pub struct Disc2 {
    pub c: V2,
    pub r2: i64,
    pub ghost proper: { pos 0 <ℤ r2 },
}
