//! Whether the ray straight down from a point crosses a segment, and whether the point is on the segment's line. It is
//! told by the columns of the ends and the side of the line. Arcs are in `arc_crossings`.
ghost use Rattle.std.specs.Prelude.{◌≡◌, pos, int_lt};
ghost use Rattle.std.specs.Ordering.{int_eq};
ghost use Rattle.bc_num.specs.Measures.{turn as turn_of, is_same as are_same};
ghost use Rattle.bc_num.specs.Sizes.{AreCoords, IsSmallPoint};
ghost use Rattle.bc_parity.specs.Crossings.{has_passed, is_before as comes_before, is_above_line, is_crossed};

use crate::numbers::{column, turn, width};
use crate::order::{exactly_one, have_one_sign, is_at_most, is_equal, is_less};
use bc_num::{P2, V2};

pub(crate) fn is_same(s: &V2, e: &V2) -> bool
    ensures { result ≡ are_same s.now e.now }
{
    s.x == e.x && s.y == e.y
}

// Whether s has the lesser x.
pub(crate) fn is_left_of(s: &V2, e: &V2) -> bool
    ensures { result ≡ int_lt s.now.x e.now.x }
{
    s.x < e.x
}

// Whether p has passed t's column.
pub(crate) fn reaches(t: &V2, p: &P2) -> bool
    requires t_near { AreCoords t.now }
    requires p_small { IsSmallPoint p.now }
    ensures { result ≡ has_passed t.now p.now }
{
    is_at_most(column(t, p), p.x)
}

// Whether p is before t's column.
pub(crate) fn is_before(p: &P2, t: &V2) -> bool
    requires t_near { AreCoords t.now }
    requires p_small { IsSmallPoint p.now }
    ensures { result ≡ comes_before p.now t.now }
{
    is_less(p.x, column(t, p))
}

// Whether p is strictly above the line through a and b.
fn is_over(a: &V2, b: &V2, p: &P2) -> bool
    requires a_near { AreCoords a.now }
    requires b_near { AreCoords b.now }
    requires p_small { IsSmallPoint p.now }
    ensures { result ≡ is_above_line a.now b.now p.now }
{
    have_one_sign(width(a, b), turn(a, b, p))
}

// Whether the ray crosses the segment from a to b.
pub(crate) fn crosses(a: &V2, b: &V2, p: &P2) -> bool
    requires a_near { AreCoords a.now }
    requires b_near { AreCoords b.now }
    requires p_small { IsSmallPoint p.now }
    ensures { result ≡ is_crossed a.now b.now p.now }
{
    exactly_one(reaches(a, p), reaches(b, p)) && is_over(a, b, p)
}

// Whether p is on the line through a and b.
pub(crate) fn is_on_line(a: &V2, b: &V2, p: &P2) -> bool
    requires a_near { AreCoords a.now }
    requires b_near { AreCoords b.now }
    requires p_small { IsSmallPoint p.now }
    ensures { result ≡ int_eq (turn_of a.now b.now p.now) (pos 0) }
{
    is_equal(turn(a, b, p), 0)
}
