//! The plane as a space: its mediants, the points where two lines meet by Cramer's rule, and the four walls of a box.
//! The proofs of its laws are in `specs/Laws`; space is in `solid`.
ghost use Rattle.std.specs.Prelude.{◌≡◌, ◌-◌, ◌^◌, ◌-ℤ◌, ◌*ℤ◌, [], ◌∷◌, Some};
ghost use Rattle.bc_algebra.specs.Within.{IsWithin};
ghost use Rattle.bc_space.specs.Lines.{IsSizedLine};
ghost use Rattle.bc_space.specs.Flat.{left, right, low, high, point_over2, met2};

use crate::{Line2, Space};
use bc_num::{Box2, P2, reduce2};

/// The plane, a space with points `P2`, half-spaces `Line2` and boxes `Box2`. Half-spaces have normals of at most 2046
/// along each axis and offsets below 2^22, and boxes numbers of at most 4096.
#[derive(Clone, Copy, Debug, Drop)]
pub struct Flat;

impl Space for Flat {
    ghost use Rattle.bc_num.specs.Points.{IsMultiple2, IsReduced2};
    ghost use Rattle.bc_num.specs.Sizes.{IsSmallPoint, IsLargePoint};
    ghost use Rattle.bc_space.specs.Lines.{IsSizedLine};
    ghost use Rattle.bc_space.specs.Flat.{IsSizedBox2, mixed2, met2, walls2};
    ghost use Rattle.bc_space.specs.Laws.FlatWays.{flat_hull};
    ghost use Rattle.bc_space.specs.Laws.FlatEdges.{flat_edge};
    ghost use Rattle.bc_space.specs.Laws.FlatMeets.{flat_meet};
    ghost use Rattle.bc_space.specs.Laws.FlatLaws.{flat_factor, flat_mediant, flat_size, flat_box, flat_side_fits};

    type Point = P2;

    type Half = Line2;

    type Bounds = Box2;

    ghost dimension = { 2 };

    ghost half_fits = { IsSizedLine };

    ghost box_fits = { IsSizedBox2 };

    ghost point_fits = { IsLargePoint };

    ghost inner_fits = { IsSmallPoint };

    ghost is_multiple = { IsMultiple2 };

    ghost is_reduced = { IsReduced2 };

    ghost mixed = { mixed2 };

    ghost met = { met2 };

    ghost walls = { walls2 };

    fn dim() -> usize {
        2
    }

    fn same(p: &P2, q: &P2) -> bool {
        p == q
    }

    fn mix(p: &P2, q: &P2) -> P2 {
        P2 {
            x: p.x + q.x,
            y: p.y + q.y,
            w: p.w + q.w,
        }
    }

    fn meet(halves: &[Line2]) -> Option<P2> {
        meet_of(&halves[0], &halves[1])
    }

    fn wall(bounds: &Box2, i: usize) -> Line2 {
        match i {
            0 => left_of(*bounds),
            1 => right_of(*bounds),
            2 => low_of(*bounds),
            _ => high_of(*bounds),
        }
    }

    ghost factor = { flat_factor };

    ghost mediant = { flat_mediant };

    ghost hull = { flat_hull };

    ghost edge = { flat_edge };

    ghost size = { flat_size };

    ghost meets = { flat_meet };

    ghost boxes = { flat_box };

    ghost side_fits = { flat_side_fits };
}

// By Cramer's rule.
fn meet_of(g: &Line2, h: &Line2) -> Option<P2>
    requires g_sized { IsSizedLine g.now }
    requires h_sized { IsSizedLine h.now }
    ensures { result ≡ met2 (g.now ∷ (h.now ∷ [])) }
{
    let x = determinant(g.d, g.b, h.d, h.b);
    let y = determinant(g.a, g.d, h.a, h.d);
    let w = determinant(g.a, g.b, h.a, h.b);
    point_over(x, y, w)
}

fn determinant(a: i64, b: i64, c: i64, d: i64) -> i128
    requires a_near { IsWithin (2 ^ 22 - 1) a }
    requires b_near { IsWithin (2 ^ 22 - 1) b }
    requires c_near { IsWithin (2 ^ 22 - 1) c }
    requires d_near { IsWithin (2 ^ 22 - 1) d }
    ensures value { result ≡ a *ℤ d -ℤ b *ℤ c }
    ensures near { IsWithin (2 ^ 45) result }
{
    a as i128 * d as i128 - b as i128 * c as i128
}

// The point x over w, y over w in lowest terms.
fn point_over(x: i128, y: i128, w: i128) -> Option<P2>
    requires x_near { IsWithin (2 ^ 45) x }
    requires y_near { IsWithin (2 ^ 45) y }
    requires w_near { IsWithin (2 ^ 45) w }
    ensures { result ≡ point_over2 x y w }
{
    if w > 0 {
        Some(reduce2(P2 { x, y, w }))
    } else if w < 0 {
        Some(reduce2(P2 {
            x: -x,
            y: -y,
            w: -w,
        }))
    } else {
        None
    }
}

fn left_of(b: Box2) -> Line2
    ensures { result ≡ left b }
{
    Line2 {
        a: 1,
        b: 0,
        d: b.x0,
    }
}

fn right_of(b: Box2) -> Line2
    ensures { result ≡ right b }
{
    Line2 {
        a: -1,
        b: 0,
        d: -b.x1,
    }
}

fn low_of(b: Box2) -> Line2
    ensures { result ≡ low b }
{
    Line2 {
        a: 0,
        b: 1,
        d: b.y0,
    }
}

fn high_of(b: Box2) -> Line2
    ensures { result ≡ high b }
{
    Line2 {
        a: 0,
        b: -1,
        d: -b.y1,
    }
}
