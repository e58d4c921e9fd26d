//! Whether a point of the plane has an odd number of crossings with contours below it, with their arcs or with the
//! chords in place of these; and whether it is on the line of an edge or a chord, or on the circle of an arc. One
//! segment is in `edge_crossings`, one arc in `arc_crossings`; the same of meshes is in `face_queries`.
ghost use Rattle.std.specs.Prelude.{◌≡◌, ◌↔◌, IsTrue, Any, false};
ghost use Rattle.bc_num.specs.Sizes.{IsSmallPoint};
ghost use Rattle.bc_solid.specs.Closed.{AreNear};
ghost use Rattle.bc_solid.specs.HalfSpaces.{IsOn, IsOff, half_spaces, half_spaces_of};
ghost use Rattle.bc_parity.specs.Parity.{is_odd};
ghost use Rattle.bc_parity.specs.Odd.{crossings_of, is_odd_at};
ghost use Rattle.bc_parity.specs.StraightOdd.{straight_crossings_of, is_straight_odd_at};
ghost use Rattle.bc_parity.specs.OnEdge.{is_on_any};

use crate::arc_crossings::{crosses_arc, is_on_circle};
use crate::edge_crossings::{crosses, is_on_line, is_same};
use crate::order::exactly_one;
use bc_num::P2;
use bc_solid::{Element, Profile};

// Whether the ray crosses the element an odd number of times.
fn crosses_oddly(element: Element, p: &P2) -> bool
    requires near { AreNear element }
    requires p_small { IsSmallPoint p.now }
    ensures { result ≡ is_odd (crossings_of element p.now) }
{
    match element {
        Element::Edge { a, b } => crosses(&a, &b, p),
        Element::Arc { a, b, c, ccw } => crosses_arc(&a, &b, &c, ccw, p),
    }
}

// The same of the chord in place of an arc, and of nothing in place of a full circle.
fn crosses_straight(element: Element, p: &P2) -> bool
    requires near { AreNear element }
    requires p_small { IsSmallPoint p.now }
    ensures { result ≡ is_odd (straight_crossings_of element p.now) }
{
    match element {
        Element::Edge { a, b } => crosses(&a, &b, p),
        Element::Arc { a, b, .. } => !is_same(&a, &b) && crosses(&a, &b, p),
    }
}

// Whether p is on the boundary of one of the element's half-spaces.
fn touches(element: Element, p: &P2) -> bool
    requires near { AreNear element }
    requires p_small { IsSmallPoint p.now }
    ensures { result ≡ is_on_any (half_spaces_of element) p.now }
{
    match element {
        Element::Edge { a, b } => is_on_line(&a, &b, p),
        Element::Arc { a, b, c, .. } => {
            !is_same(&a, &b) && is_on_line(&a, &b, p) || is_on_circle(&c, &a, p)
        }
    }
}

/// Whether the ray straight down from `p` crosses the edges and arcs an odd number of times. The ray is moved an
/// infinitesimal step to the right, so the answer is also told at points above an end. The coordinates of `p` are at most
/// 2^60 in size, its `w` is at most 2^40.
pub fn odd2(s: &Profile, p: &P2) -> bool
    requires { IsSmallPoint p.now }
    ensures { result ≡ is_odd_at s.now p.now }
{
    let mut odd = false;
    for i in 0..s.elements() {
        odd = exactly_one(odd, crosses_oddly(s.element(i), p));
    }
    odd
}

/// Whether the ray straight down from `p` crosses the edges and chords an odd number of times, with each arc replaced by
/// its chord, and each full circle by nothing. The ray is that of `odd2`, and the numbers of `p` are of the same sizes.
pub fn straight_odd2(s: &Profile, p: &P2) -> bool
    requires { IsSmallPoint p.now }
    ensures { result ≡ is_straight_odd_at s.now p.now }
{
    let mut odd = false;
    for i in 0..s.elements() {
        odd = exactly_one(odd, crosses_straight(s.element(i), p));
    }
    odd
}

/// Whether `p` is on the line of an edge, on the line of the chord of an arc that is no full circle, or on the circle of
/// an arc. The coordinates of `p` are at most 2^60 in size, its `w` is at most 2^40.
pub fn on_edge2(s: &Profile, p: &P2) -> bool
    requires { IsSmallPoint p.now }
    ensures on { IsTrue result ↔ Any (λ h. IsOn h p.now) (half_spaces s.now) }
    ensures off { (result ≡ false) ↔ IsOff s.now p.now }
{
    for i in 0..s.elements() {
        if touches(s.element(i), p) {
            return true;
        }
    }
    false
}
