//! The box of contours: the spans of all elements along both axes, with the rims of the arcs' circles, wider by 1 on
//! each side. `specs/Spans` says what a span is. `bounds3` has the box of a mesh.
ghost use Rattle.std.specs.Prelude.{◌≡◌, ◌<◌, ◌≤◌, pos, ◌+ℤ◌, ◌-ℤ◌, Any, length};
ghost use Rattle.std.specs.Int.{int_min, int_max};
ghost use Rattle.bc_algebra.specs.Within.{IsWithin};
ghost use Rattle.bc_num.specs.Measures.{square_between};
ghost use Rattle.bc_num.specs.Sizes.{AreCoords};
ghost use Rattle.bc_solid.specs.Boxes.{IsReach, IsXOf, IsYOf, IsBoxOf};
ghost use Rattle.bc_solid.specs.Closed.{AreNear};
ghost use Rattle.bc_natural.specs.Spans.{IsSpan, IsHull};
ghost use Rattle.bc_natural.specs.Limits.{IsNearBox};

use crate::span::Span;
use bc_num::{Box2, V2, reach};
use bc_solid::{Element, Profile, square_of};

// The spans along both axes.
#[derive(Clone, Copy)]
struct Extent {
    x: Span,
    y: Span,
}

// How far the circle round c through a reaches along an axis, rounded up.
fn reach_of(c: V2, a: V2) -> u32
    requires c_near { AreCoords c }
    requires a_near { AreCoords a }
    ensures reach { IsReach (square_between c a) result }
    ensures near { result ≤ 2894 }
{
    reach(square_of(c, a) as u32)
}

// The span of two coordinates.
fn span_of(a: &i64, b: &i64) -> Span
    requires a_near { IsWithin 1023 a.now }
    requires b_near { IsWithin 1023 b.now }
    ensures low { result.low ≡ int_min a.now b.now }
    ensures high { result.high ≡ int_max a.now b.now }
{
    Span {
        low: *a.min(b),
        high: *a.max(b),
    }
}

// The span of a circle's rim, by its centre's coordinate and its reach.
fn rim_of(c: &i64, reach: u32) -> Span
    requires c_near { IsWithin 1023 c.now }
    requires reach_near { reach ≤ 2894 }
    ensures low { result.low ≡ c.now -ℤ pos reach }
    ensures high { result.high ≡ c.now +ℤ pos reach }
{
    let reach = i64::from(reach);
    Span {
        low: *c - reach,
        high: *c + reach,
    }
}

// The span of both.
pub(crate) fn hull_of(s: Span, t: Span) -> Span
    ensures { IsHull s t result }
{
    Span {
        low: s.low.min(t.low),
        high: s.high.max(t.high),
    }
}

// The spans of an element.
fn extent_of(element: Element) -> Extent
    requires near { AreNear element }
    ensures x { IsSpan (IsXOf element) result.x }
    ensures y { IsSpan (IsYOf element) result.y }
{
    match element {
        Element::Edge { a, b } => Extent {
            x: span_of(&a.x, &b.x),
            y: span_of(&a.y, &b.y),
        },
        Element::Arc { a, b, c, .. } => {
            let reach = reach_of(c, a);
            Extent {
                x: hull_of(span_of(&a.x, &b.x), rim_of(&c.x, reach)),
                y: hull_of(span_of(&a.y, &b.y), rim_of(&c.y, reach)),
            }
        }
    }
}

// The spans of all elements.
fn whole_extent(s: &Profile) -> Extent
    requires { 0 < length s.now }
    ensures x { IsSpan (λ z. Any (λ e. IsXOf e z) s.now) result.x }
    ensures y { IsSpan (λ z. Any (λ e. IsYOf e z) s.now) result.y }
{
    let mut all = extent_of(s.element(0));
    for i in 1..s.elements() {
        let next = extent_of(s.element(i));
        all = Extent {
            x: hull_of(all.x, next.x),
            y: hull_of(all.y, next.y),
        };
    }
    all
}

// The box that is wider by 1 on each side.
fn box_round(all: Extent) -> Box2
    ensures x0 { result.x0 +ℤ pos 1 ≡ all.x.low }
    ensures y0 { result.y0 +ℤ pos 1 ≡ all.y.low }
    ensures x1 { result.x1 -ℤ pos 1 ≡ all.x.high }
    ensures y1 { result.y1 -ℤ pos 1 ≡ all.y.high }
    ensures near { IsNearBox result }
{
    Box2 {
        x0: all.x.low - 1,
        y0: all.y.low - 1,
        x1: all.x.high + 1,
        y1: all.y.high + 1,
    }
}

/// The box of the elements: along each axis from the least coordinate of an element's end, or of the rim of an arc's
/// circle, minus 1, to the greatest plus 1. The rim is as far from the centre as the least whole number whose square is at
/// least the squared radius. Without elements the box goes from -1 to 1. No memory is taken, and the cost grows with the
/// number of elements.
pub fn box2(s: &Profile) -> Box2
    ensures box_of { IsBoxOf s.now result }
    ensures near { IsNearBox result }
{
    if s.elements() == 0 {
        return Box2 {
            x0: -1,
            y0: -1,
            x1: 1,
            y1: 1,
        };
    }
    box_round(whole_extent(s))
}
