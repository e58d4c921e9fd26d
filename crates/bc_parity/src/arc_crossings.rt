//! Whether the ray straight down from a point crosses an arc once and not twice, and whether the point is on the arc's
//! circle. At most two points of the circle are in the point's column; for each it is told whether it is on the arc
//! and below the point. Segments are in `edge_crossings`.
ghost use Rattle.std.specs.Prelude.{◌≡◌, true, int_le, int_lt, ◌*ℤ◌, ◌&&◌};
ghost use Rattle.std.specs.Ordering.{int_eq};
ghost use Rattle.bc_num.specs.Measures.{square_distance, square_between};
ghost use Rattle.bc_num.specs.Sizes.{AreCoords, IsSmallPoint};
ghost use Rattle.bc_parity.specs.Parity.{is_odd};
ghost use Rattle.bc_parity.specs.Crossings.{crossings_of_arc, has_upper as upper_on_arc, has_lower as lower_on_arc, is_first as is_before_end, meets_circle as column_meets, is_in_disc as inside, is_past_disc as outside, is_above_upper, is_above_lower};
ghost use Rattle.bc_parity.specs.ChordLaw.{arc_of};
ghost use Rattle.bc_parity.specs.Between.{is_odd_between};

use crate::edge_crossings::{is_before, is_left_of, is_same};
use crate::numbers::{level, square_across_of, square_distance_of, square_radius_of};
use crate::order::{
    comes_first, exactly_one, is_equal, is_less, lies_on, lower_first, meets, upper_first,
};
use bc_num::{P2, V2};

// Whether t is in the upper half of a circle round c.
fn is_upper(c: &V2, t: &V2) -> bool
    ensures { result ≡ int_le c.now.y t.now.y }
{
    c.y <= t.y
}

// Whether s comes before e on a circle round c, counter-clockwise from its right extreme.
fn is_first(c: &V2, s: &V2, e: &V2) -> bool
    ensures { result ≡ is_before_end (arc_of s.now e.now c.now true) s.now e.now }
{
    comes_first(
        is_upper(c, s),
        is_upper(c, e),
        is_left_of(e, s),
        is_left_of(s, e),
    )
}

// Whether the upper point of p's column is on the part from s to e.
fn has_upper(c: &V2, s: &V2, e: &V2, p: &P2) -> bool
    requires c_near { AreCoords c.now }
    requires s_near { AreCoords s.now }
    requires e_near { AreCoords e.now }
    requires p_small { IsSmallPoint p.now }
    ensures { result ≡ upper_on_arc (arc_of s.now e.now c.now true) s.now e.now p.now }
{
    let to_s = upper_first(is_upper(c, s), is_before(p, s));
    let to_e = upper_first(is_upper(c, e), is_before(p, e));
    lies_on(is_same(s, e), is_first(c, s, e), to_s, to_e)
}

// Whether the lower point of p's column is on the part from s to e.
fn has_lower(c: &V2, s: &V2, e: &V2, p: &P2) -> bool
    requires c_near { AreCoords c.now }
    requires s_near { AreCoords s.now }
    requires e_near { AreCoords e.now }
    requires p_small { IsSmallPoint p.now }
    ensures { result ≡ lower_on_arc (arc_of s.now e.now c.now true) s.now e.now p.now }
{
    let to_s = lower_first(is_upper(c, s), is_before(p, s));
    let to_e = lower_first(is_upper(c, e), is_before(p, e));
    lies_on(is_same(s, e), is_first(c, s, e), to_s, to_e)
}

// Whether p's column meets the circle round c through `start`. The functions below speak of the same circle.
fn meets_circle(c: &V2, start: &V2, p: &P2) -> bool
    requires c_near { AreCoords c.now }
    requires start_near { AreCoords start.now }
    requires p_small { IsSmallPoint p.now }
    ensures { result ≡ column_meets (arc_of start.now start.now c.now true) p.now }
{
    meets(
        square_across_of(c, p),
        square_radius_of(c, start, p),
        is_before(p, c),
    )
}

// Whether p is strictly inside the disc.
fn is_inside(c: &V2, start: &V2, p: &P2) -> bool
    requires c_near { AreCoords c.now }
    requires start_near { AreCoords start.now }
    requires p_small { IsSmallPoint p.now }
    ensures { result ≡ inside (arc_of start.now start.now c.now true) p.now }
{
    is_less(square_distance_of(c, p), square_radius_of(c, start, p))
}

// Whether p is strictly outside the disc.
fn is_outside(c: &V2, start: &V2, p: &P2) -> bool
    requires c_near { AreCoords c.now }
    requires start_near { AreCoords start.now }
    requires p_small { IsSmallPoint p.now }
    ensures { result ≡ outside (arc_of start.now start.now c.now true) p.now }
{
    is_less(square_radius_of(c, start, p), square_distance_of(c, p))
}

// Whether p is higher than the centre.
fn is_over_centre(c: &V2, p: &P2) -> bool
    requires c_near { AreCoords c.now }
    requires p_small { IsSmallPoint p.now }
    ensures { result ≡ int_lt (c.now.y *ℤ p.now.w) p.now.y }
{
    is_less(level(c, p), p.y)
}

// Whether p is above the upper point of its column.
fn is_over_upper(c: &V2, start: &V2, p: &P2) -> bool
    requires c_near { AreCoords c.now }
    requires start_near { AreCoords start.now }
    requires p_small { IsSmallPoint p.now }
    ensures { result ≡ is_above_upper (arc_of start.now start.now c.now true) p.now }
{
    is_outside(c, start, p) && is_over_centre(c, p)
}

// Whether p is above the lower point of its column.
fn is_over_lower(c: &V2, start: &V2, p: &P2) -> bool
    requires c_near { AreCoords c.now }
    requires start_near { AreCoords start.now }
    requires p_small { IsSmallPoint p.now }
    ensures { result ≡ is_above_lower (arc_of start.now start.now c.now true) p.now }
{
    is_inside(c, start, p) || is_over_upper(c, start, p)
}

// Whether p is on the circle round c through `start`.
pub(crate) fn is_on_circle(c: &V2, start: &V2, p: &P2) -> bool
    requires c_near { AreCoords c.now }
    requires start_near { AreCoords start.now }
    requires p_small { IsSmallPoint p.now }
    ensures { result ≡ int_eq (square_distance c.now p.now) (square_between c.now start.now *ℤ (p.now.w *ℤ p.now.w)) }
{
    is_equal(square_distance_of(c, p), square_radius_of(c, start, p))
}

// Whether the ray crosses the part from s to e at the upper point of its column.
fn crosses_upper(c: &V2, start: &V2, s: &V2, e: &V2, p: &P2) -> bool
    requires c_near { AreCoords c.now }
    requires start_near { AreCoords start.now }
    requires s_near { AreCoords s.now }
    requires e_near { AreCoords e.now }
    requires p_small { IsSmallPoint p.now }
    ensures { result ≡ (upper_on_arc (arc_of start.now start.now c.now true) s.now e.now p.now && is_above_upper (arc_of start.now start.now c.now true) p.now) }
{
    has_upper(c, s, e, p) && is_over_upper(c, start, p)
}

// Whether the ray crosses the part from s to e at the lower point of its column.
fn crosses_lower(c: &V2, start: &V2, s: &V2, e: &V2, p: &P2) -> bool
    requires c_near { AreCoords c.now }
    requires start_near { AreCoords start.now }
    requires s_near { AreCoords s.now }
    requires e_near { AreCoords e.now }
    requires p_small { IsSmallPoint p.now }
    ensures { result ≡ (lower_on_arc (arc_of start.now start.now c.now true) s.now e.now p.now && is_above_lower (arc_of start.now start.now c.now true) p.now) }
{
    has_lower(c, s, e, p) && is_over_lower(c, start, p)
}

// Whether the ray crosses the part that leads counter-clockwise from s to e once, and not twice.
fn crosses_between(c: &V2, start: &V2, s: &V2, e: &V2, p: &P2) -> bool
    requires c_near { AreCoords c.now }
    requires start_near { AreCoords start.now }
    requires s_near { AreCoords s.now }
    requires e_near { AreCoords e.now }
    requires p_small { IsSmallPoint p.now }
    ensures { result ≡ is_odd_between (arc_of start.now start.now c.now true) s.now e.now p.now }
{
    let meets = meets_circle(c, start, p);
    exactly_one(
        meets && crosses_upper(c, start, s, e, p),
        meets && crosses_lower(c, start, s, e, p),
    )
}

// Whether the ray crosses the arc from a to b round c once, and not twice.
pub(crate) fn crosses_arc(a: &V2, b: &V2, c: &V2, ccw: bool, p: &P2) -> bool
    requires a_near { AreCoords a.now }
    requires b_near { AreCoords b.now }
    requires c_near { AreCoords c.now }
    requires p_small { IsSmallPoint p.now }
    ensures { result ≡ is_odd (crossings_of_arc (arc_of a.now b.now c.now ccw) p.now) }
{
    if ccw {
        crosses_between(c, a, a, b, p)
    } else {
        crosses_between(c, a, b, a, p)
    }
}
