//! The least and the greatest of numbers along one axis, and along the three axes of space. `bounds2` and `bounds3`
//! make boxes of them, and `specs/Spans` says of which numbers they are.
ghost use Rattle.std.specs.Prelude.{◌≤ℤ◌};
ghost use Rattle.bc_algebra.specs.Within.{IsWithin};

// The least and the greatest of some numbers along an axis: coordinates, and where the rims of circles end.
#[derive(Clone, Copy)]
pub(crate) struct Span {
    pub(crate) low: i64,
    pub(crate) high: i64,
    pub(crate) ghost low_near: { IsWithin 3917 low },
    pub(crate) ghost high_near: { IsWithin 3917 high },
    pub(crate) ghost ordered: { low ≤ℤ high },
}

// The spans along the three axes of space.
#[derive(Clone, Copy)]
pub(crate) struct Extent3 {
    pub(crate) x: Span,
    pub(crate) y: Span,
    pub(crate) z: Span,
}
