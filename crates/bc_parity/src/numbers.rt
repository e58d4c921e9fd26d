//! The numbers that crossings in the plane are told by: turns, widths, columns, levels and squared distances. All but
//! the widths are scaled by the point's denominator or its square, so that they are whole.
ghost use Rattle.std.specs.Prelude.{◌≡◌, ◌-ℤ◌, ◌*ℤ◌};
ghost use Rattle.bc_num.specs.Measures.{across, square_distance, square_between, turn as turn_of};
ghost use Rattle.bc_num.specs.Sizes.{AreCoords, IsSmallPoint};

use bc_num::{P2, V2};

// How far p is left of the line from a to b, times the length of ab and p.w.
pub(crate) fn turn(a: &V2, b: &V2, p: &P2) -> i128
    requires a_near { AreCoords a.now }
    requires b_near { AreCoords b.now }
    requires p_small { IsSmallPoint p.now }
    ensures { result ≡ turn_of a.now b.now p.now }
{
    (b.x - a.x) as i128 * (p.y - a.y as i128 * p.w)
        - (b.y - a.y) as i128 * (p.x - a.x as i128 * p.w)
}

pub(crate) fn width(a: &V2, b: &V2) -> i64
    requires a_near { AreCoords a.now }
    requires b_near { AreCoords b.now }
    ensures { result ≡ b.now.x -ℤ a.now.x }
{
    b.x - a.x
}

pub(crate) fn column(t: &V2, p: &P2) -> i128
    requires t_near { AreCoords t.now }
    requires p_small { IsSmallPoint p.now }
    ensures { result ≡ t.now.x *ℤ p.now.w }
{
    t.x as i128 * p.w
}

pub(crate) fn level(t: &V2, p: &P2) -> i128
    requires t_near { AreCoords t.now }
    requires p_small { IsSmallPoint p.now }
    ensures { result ≡ t.now.y *ℤ p.now.w }
{
    t.y as i128 * p.w
}

// The squared distance of p's column from c, times p.w squared.
pub(crate) fn square_across_of(c: &V2, p: &P2) -> i128
    requires c_near { AreCoords c.now }
    requires p_small { IsSmallPoint p.now }
    ensures { result ≡ across c.now p.now *ℤ across c.now p.now }
{
    let across = p.x - c.x as i128 * p.w;
    across * across
}

// The squared distance of p from c, times p.w squared.
pub(crate) fn square_distance_of(c: &V2, p: &P2) -> i128
    requires c_near { AreCoords c.now }
    requires p_small { IsSmallPoint p.now }
    ensures { result ≡ square_distance c.now p.now }
{
    let across = p.x - c.x as i128 * p.w;
    let up = p.y - c.y as i128 * p.w;
    across * across + up * up
}

// The squared radius of the circle round c through `start`, times p.w squared.
pub(crate) fn square_radius_of(c: &V2, start: &V2, p: &P2) -> i128
    requires c_near { AreCoords c.now }
    requires start_near { AreCoords start.now }
    requires p_small { IsSmallPoint p.now }
    ensures { result ≡ square_between c.now start.now *ℤ (p.now.w *ℤ p.now.w) }
{
    let x = start.x - c.x;
    let y = start.y - c.y;
    (x * x + y * y) as i128 * (p.w * p.w)
}
