//! The box of a mesh: the spans of all corners along the three axes, wider by 1 on each side. `specs/Spans` says what
//! the spans are. `bounds2` has the box of contours.
ghost use Rattle.std.specs.Prelude.{◌≡◌, ◌<◌, pos, ◌+ℤ◌, ◌-ℤ◌, length, slice_get, Some};
ghost use Rattle.bc_algebra.specs.Within.{IsWithin};
ghost use Rattle.bc_num.specs.Sizes.{AreCoords3};
ghost use Rattle.bc_solid.specs.Facets.{Facet};
ghost use Rattle.bc_solid.specs.Boxes3.{IsCoordinate, IsBoxOf3};
ghost use Rattle.bc_natural.specs.Spans.{AreSpans, AreHulls, IsAt, IsAlong};
ghost use Rattle.bc_natural.specs.Planes.{IsNearBox3};

use crate::bounds2::hull_of;
use crate::corners::first_corner;
use crate::span::{Extent3, Span};
use bc_num::{Box3, V3};
use bc_solid::Solid;

// The span of one coordinate.
fn span_at(z: &i64) -> Span
    requires { IsWithin 1023 z.now }
    ensures low { result.low ≡ z.now }
    ensures high { result.high ≡ z.now }
{
    Span { low: *z, high: *z }
}

// The spans of one place.
fn place_extent(v: V3) -> Extent3
    requires { AreCoords3 v }
    ensures { AreSpans (IsAt v) result }
{
    Extent3 {
        x: span_at(&v.x),
        y: span_at(&v.y),
        z: span_at(&v.z),
    }
}

// The spans of both.
fn extent_hull(s: Extent3, t: Extent3) -> Extent3
    ensures { AreHulls s t result }
{
    Extent3 {
        x: hull_of(s.x, t.x),
        y: hull_of(s.y, t.y),
        z: hull_of(s.z, t.z),
    }
}

// The spans of a face's corners.
fn face_extent(s: &Solid, f: usize) -> Extent3
    requires { f < length s.now }
    ensures { (facet : Facet) → slice_get s.now f ≡ Some facet → AreSpans (IsAlong facet.corners) result }
{
    let mut all = place_extent(first_corner(s, f));
    for i in 1..s.corners(f) {
        all = extent_hull(all, place_extent(s.corner(f, i)));
    }
    all
}

// The spans of all corners.
fn solid_extent(s: &Solid) -> Extent3
    requires { 0 < length s.now }
    ensures { AreSpans (λ along z. IsCoordinate along s.now z) result }
{
    let mut all = face_extent(s, 0);
    for f in 1..s.faces() {
        all = extent_hull(all, face_extent(s, f));
    }
    all
}

// The box that is wider by 1 on each side.
fn box_round3(all: Extent3) -> Box3
    ensures x0 { result.x0 +ℤ pos 1 ≡ all.x.low }
    ensures y0 { result.y0 +ℤ pos 1 ≡ all.y.low }
    ensures z0 { result.z0 +ℤ pos 1 ≡ all.z.low }
    ensures x1 { result.x1 -ℤ pos 1 ≡ all.x.high }
    ensures y1 { result.y1 -ℤ pos 1 ≡ all.y.high }
    ensures z1 { result.z1 -ℤ pos 1 ≡ all.z.high }
{
    Box3 {
        x0: all.x.low - 1,
        y0: all.y.low - 1,
        z0: all.z.low - 1,
        x1: all.x.high + 1,
        y1: all.y.high + 1,
        z1: all.z.high + 1,
    }
}

/// The box of a mesh: along each axis from the least coordinate of a corner minus 1 to the greatest plus 1. Without faces
/// the box goes from -1 to 1. No memory is taken, and the cost grows with the number of corners.
pub fn box3(s: &Solid) -> Box3
    ensures box_of { IsBoxOf3 s.now result }
    ensures near { IsNearBox3 result }
{
    s.law();
    if s.faces() == 0 {
        return Box3 {
            x0: -1,
            y0: -1,
            z0: -1,
            x1: 1,
            y1: 1,
            z1: 1,
        };
    }
    box_round3(solid_extent(s))
}
