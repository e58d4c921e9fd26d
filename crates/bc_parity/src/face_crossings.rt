//! Whether the ray straight down from a point of space crosses a face: seen from above, the point is in the face by
//! the edges that a ray in the plane crosses, and it is above the face's plane. `face_queries` counts over all faces.
ghost use Rattle.std.specs.Prelude.{◌≡◌, ◌<◌, ℤ, pos, ◌-ℤ◌, ◌*ℤ◌, int_lt, not, ◌&&◌, ◌||◌, length, slice_get, Some};
ghost use Rattle.std.specs.Ordering.{int_eq};
ghost use Rattle.bc_num.specs.Measures.{turn as turn_of};
ghost use Rattle.bc_num.specs.Sizes.{AreCoords3, IsLargePoint3};
ghost use Rattle.bc_space.specs.Planes.{plane_value, IsSizedPlane};
ghost use Rattle.bc_space.specs.Sides.{side_of_value};
ghost use Rattle.bc_solid.specs.Meshes.{edges};
ghost use Rattle.bc_solid.specs.Facets.{Facet};
ghost use Rattle.bc_parity.specs.Crossings.{has_passed};
ghost use Rattle.bc_parity.specs.Faces.{shadow, shadow_point, is_edge_crossed, is_over as is_over_plane, is_face_crossed};
ghost use Rattle.bc_parity.specs.Sums.{odd};

use crate::order::{exactly_one, have_one_sign, is_at_most};
use bc_num::{P3, V3};
use bc_solid::Solid;
use bc_space::{HalfSpace, Plane3, Side};

// Seen from above, how far p is left of the line from a to b, times the length of ab and p.w.
fn turn(a: &V3, b: &V3, p: &P3) -> i128
    requires a_near { AreCoords3 a.now }
    requires b_near { AreCoords3 b.now }
    requires p_large { IsLargePoint3 p.now }
    ensures { result ≡ turn_of (shadow a.now) (shadow b.now) (shadow_point p.now) }
{
    (b.x - a.x) as i128 * (p.y - a.y as i128 * p.w)
        - (b.y - a.y) as i128 * (p.x - a.x as i128 * p.w)
}

fn width(a: &V3, b: &V3) -> i64
    requires a_near { AreCoords3 a.now }
    requires b_near { AreCoords3 b.now }
    ensures { result ≡ b.now.x -ℤ a.now.x }
{
    b.x - a.x
}

// The rise from a to b in y, times the width.
fn rise(a: &V3, b: &V3) -> i64
    requires a_near { AreCoords3 a.now }
    requires b_near { AreCoords3 b.now }
    ensures { result ≡ (b.now.x -ℤ a.now.x) *ℤ (b.now.y -ℤ a.now.y) }
{
    (b.x - a.x) * (b.y - a.y)
}

fn column(t: &V3, p: &P3) -> i128
    requires t_near { AreCoords3 t.now }
    requires p_large { IsLargePoint3 p.now }
    ensures { result ≡ t.now.x *ℤ p.now.w }
{
    t.x as i128 * p.w
}

// Whether p has passed t's column, seen from above.
fn reaches(t: &V3, p: &P3) -> bool
    requires t_near { AreCoords3 t.now }
    requires p_large { IsLargePoint3 p.now }
    ensures { result ≡ has_passed (shadow t.now) (shadow_point p.now) }
{
    is_at_most(column(t, p), p.x)
}

// Whether a point is above a line, or on it while it does not rise: by its width, its rise times the width, and the
// point's turn.
fn is_above_or_on(width: i64, rise: i64, turn: i128) -> bool
    ensures { result ≡ (int_lt (pos 0) (width *ℤ turn) || int_eq turn (pos 0) && not (int_lt (pos 0) rise)) }
{
    have_one_sign(width, turn) || turn == 0 && rise <= 0
}

// Whether the planar ray crosses the edge from a to b, seen from above.
fn crosses_edge(a: &V3, b: &V3, p: &P3) -> bool
    requires a_near { AreCoords3 a.now }
    requires b_near { AreCoords3 b.now }
    requires p_large { IsLargePoint3 p.now }
    ensures { result ≡ is_edge_crossed (record { from = a.now; to = b.now }) p.now }
{
    exactly_one(reaches(a, p), reaches(b, p))
        && is_above_or_on(width(a, b), rise(a, b), turn(a, b, p))
}

// Whether the planar ray crosses an odd number of the edges of face f, seen from above.
fn crosses_edges_oddly(s: &Solid, f: usize, p: &P3) -> bool
    requires face { f < length s.now }
    requires p_large { IsLargePoint3 p.now }
    ensures { (facet : Facet) → slice_get s.now f ≡ Some facet → result ≡ odd (λ e. is_edge_crossed e p.now) (edges facet.corners) }
{
    s.law();
    let first = s.corner(f, 0);
    let mut before = first;
    let mut odd = false;
    for i in 1..s.corners(f) {
        let corner = s.corner(f, i);
        odd = exactly_one(odd, crosses_edge(&before, &corner, p));
        before = corner;
    }
    exactly_one(odd, crosses_edge(&before, &first, p))
}

// Whether a point is strictly above a plane with the normal's upward part c, of which it is on a side.
fn is_above_by(c: i64, side: Side) -> bool
    ensures { (value : ℤ) → side ≡ side_of_value value → result ≡ int_lt (pos 0) (c *ℤ value) }
{
    match side {
        Side::Above => c > 0,
        Side::On => false,
        Side::Below => c < 0,
    }
}

// Whether a point is on a plane, of which it is on a side.
fn is_on(side: Side) -> bool
    ensures { (value : ℤ) → side ≡ side_of_value value → result ≡ int_eq value (pos 0) }
{
    matches!(side, Side::On)
}

// Whether the plane is not vertical and p is strictly above it.
fn is_over(plane: &Plane3, p: &P3) -> bool
    requires sized { IsSizedPlane plane.now }
    requires p_large { IsLargePoint3 p.now }
    ensures { result ≡ is_over_plane plane.now p.now }
{
    is_above_by(plane.c, plane.side(p))
}

pub(crate) fn is_on_plane(plane: &Plane3, p: &P3) -> bool
    requires sized { IsSizedPlane plane.now }
    requires p_large { IsLargePoint3 p.now }
    ensures { result ≡ int_eq (plane_value plane.now p.now) (pos 0) }
{
    is_on(plane.side(p))
}

// Whether the ray crosses face f.
pub(crate) fn crosses_face(s: &Solid, f: usize, p: &P3) -> bool
    requires face { f < length s.now }
    requires p_large { IsLargePoint3 p.now }
    ensures { (facet : Facet) → slice_get s.now f ≡ Some facet → result ≡ is_face_crossed facet p.now }
{
    is_over(&s.plane(f), p) && crosses_edges_oddly(s, f, p)
}
