//! Space as a space of planes: its mediants, the points where three planes meet by Cramer's rule, and the six walls of
//! a box. The proofs of its laws are in `specs/Laws`; the plane is in `flat`.
ghost use Rattle.std.specs.Prelude.{◌≡◌, ◌-◌, ◌^◌, ◌-ℤ◌, ◌*ℤ◌, [], ◌∷◌};
ghost use Rattle.bc_algebra.specs.Within.{IsWithin};
ghost use Rattle.bc_space.specs.Planes.{IsSizedPlane};
ghost use Rattle.bc_space.specs.Solid.{
  left3,
  right3,
  front3,
  rear3,
  low3,
  high3,
  x_row,
  y_row,
  z_row,
  determinant_of_rows,
  point_over3,
  met3,
};

use crate::{Plane3, Space};
use bc_num::{Box3, P3, V3, reduce3};

/// Space, with points `P3`, half-spaces `Plane3` and boxes `Box3`. Half-spaces have normals below 2^23 along each axis and
/// offsets below 2^35, and boxes numbers of at most 4096.
#[derive(Clone, Copy, Debug, Drop)]
pub struct Solid3;

impl Space for Solid3 {
    ghost use Rattle.bc_num.specs.Points.{IsMultiple3, IsReduced3};
    ghost use Rattle.bc_num.specs.Sizes.{IsLargePoint3};
    ghost use Rattle.bc_space.specs.Planes.{IsSizedPlane};
    ghost use Rattle.bc_space.specs.Solid.{IsSizedBox3, mixed3, met3, walls3};
    ghost use Rattle.bc_space.specs.Laws.SolidWays.{solid_hull};
    ghost use Rattle.bc_space.specs.Laws.SolidEdges.{solid_edge};
    ghost use Rattle.bc_space.specs.Laws.SolidMeets.{solid_meet};
    ghost use Rattle.bc_space.specs.Laws.SolidLaws.{solid_factor, solid_mediant, solid_size, solid_box, solid_side_fits};

    type Point = P3;

    type Half = Plane3;

    type Bounds = Box3;

    ghost dimension = { 3 };

    ghost half_fits = { IsSizedPlane };

    ghost box_fits = { IsSizedBox3 };

    ghost point_fits = { IsLargePoint3 };

    ghost inner_fits = { IsLargePoint3 };

    ghost is_multiple = { IsMultiple3 };

    ghost is_reduced = { IsReduced3 };

    ghost mixed = { mixed3 };

    ghost met = { met3 };

    ghost walls = { walls3 };

    fn dim() -> usize {
        3
    }

    fn same(p: &P3, q: &P3) -> bool {
        p == q
    }

    fn mix(p: &P3, q: &P3) -> P3 {
        P3 {
            x: p.x + q.x,
            y: p.y + q.y,
            z: p.z + q.z,
            w: p.w + q.w,
        }
    }

    fn meet(halves: &[Plane3]) -> Option<P3> {
        meet_of(&halves[0], &halves[1], &halves[2])
    }

    fn wall(bounds: &Box3, i: usize) -> Plane3 {
        match i {
            0 => left_of(*bounds),
            1 => right_of(*bounds),
            2 => front_of(*bounds),
            3 => rear_of(*bounds),
            4 => low_of(*bounds),
            _ => high_of(*bounds),
        }
    }

    ghost factor = { solid_factor };

    ghost mediant = { solid_mediant };

    ghost hull = { solid_hull };

    ghost edge = { solid_edge };

    ghost size = { solid_size };

    ghost meets = { solid_meet };

    ghost boxes = { solid_box };

    ghost side_fits = { solid_side_fits };
}

// By Cramer's rule.
fn meet_of(g: &Plane3, h: &Plane3, k: &Plane3) -> Option<P3>
    requires g_sized { IsSizedPlane g.now }
    requires h_sized { IsSizedPlane h.now }
    requires k_sized { IsSizedPlane k.now }
    ensures { result ≡ met3 (g.now ∷ (h.now ∷ (k.now ∷ []))) }
{
    let x = determinant(x_row(g), x_row(h), x_row(k));
    let y = determinant(y_row(g), y_row(h), y_row(k));
    let z = determinant(z_row(g), z_row(h), z_row(k));
    let w = determinant(g.normal(), h.normal(), k.normal());
    point_over(x, y, z, w)
}

// The normal, with the offset in place of its x.
fn x_row(h: &Plane3) -> V3
    ensures { result ≡ x_row h.now }
{
    V3 {
        x: h.d,
        y: h.b,
        z: h.c,
    }
}

fn y_row(h: &Plane3) -> V3
    ensures { result ≡ y_row h.now }
{
    V3 {
        x: h.a,
        y: h.d,
        z: h.c,
    }
}

fn z_row(h: &Plane3) -> V3
    ensures { result ≡ z_row h.now }
{
    V3 {
        x: h.a,
        y: h.b,
        z: h.d,
    }
}

// Of the three rows.
fn determinant(g: V3, h: V3, k: V3) -> i128
    requires gx_near { IsWithin (2 ^ 35 - 1) g.x }
    requires gy_near { IsWithin (2 ^ 35 - 1) g.y }
    requires gz_near { IsWithin (2 ^ 35 - 1) g.z }
    requires hx_near { IsWithin (2 ^ 35 - 1) h.x }
    requires hy_near { IsWithin (2 ^ 35 - 1) h.y }
    requires hz_near { IsWithin (2 ^ 35 - 1) h.z }
    requires kx_near { IsWithin (2 ^ 35 - 1) k.x }
    requires ky_near { IsWithin (2 ^ 35 - 1) k.y }
    requires kz_near { IsWithin (2 ^ 35 - 1) k.z }
    ensures value { result ≡ determinant_of_rows g.x g.y g.z h.x h.y h.z k.x k.y k.z }
    ensures near { IsWithin (2 ^ 108) result }
{
    g.x as i128 * minor(h.y, h.z, k.y, k.z)
        + g.y as i128 * minor(h.z, h.x, k.z, k.x)
        + g.z as i128 * minor(h.x, h.y, k.x, k.y)
}

// The determinant of the rows (a, b) and (c, d).
fn minor(a: i64, b: i64, c: i64, d: i64) -> i128
    requires a_near { IsWithin (2 ^ 35 - 1) a }
    requires b_near { IsWithin (2 ^ 35 - 1) b }
    requires c_near { IsWithin (2 ^ 35 - 1) c }
    requires d_near { IsWithin (2 ^ 35 - 1) d }
    ensures value { result ≡ a *ℤ d -ℤ b *ℤ c }
    ensures near { IsWithin (2 ^ 71) result }
{
    a as i128 * d as i128 - b as i128 * c as i128
}

// The point x over w, y over w, z over w in lowest terms.
fn point_over(x: i128, y: i128, z: i128, w: i128) -> Option<P3>
    requires x_near { IsWithin (2 ^ 108) x }
    requires y_near { IsWithin (2 ^ 108) y }
    requires z_near { IsWithin (2 ^ 108) z }
    requires w_near { IsWithin (2 ^ 108) w }
    ensures { result ≡ point_over3 x y z w }
{
    if w > 0 {
        Some(reduce3(P3 { x, y, z, w }))
    } else if w < 0 {
        Some(reduce3(P3 {
            x: -x,
            y: -y,
            z: -z,
            w: -w,
        }))
    } else {
        None
    }
}

fn left_of(b: Box3) -> Plane3
    ensures { result ≡ left3 b }
{
    Plane3 {
        a: 1,
        b: 0,
        c: 0,
        d: b.x0,
    }
}

fn right_of(b: Box3) -> Plane3
    ensures { result ≡ right3 b }
{
    Plane3 {
        a: -1,
        b: 0,
        c: 0,
        d: -b.x1,
    }
}

fn front_of(b: Box3) -> Plane3
    ensures { result ≡ front3 b }
{
    Plane3 {
        a: 0,
        b: 1,
        c: 0,
        d: b.y0,
    }
}

fn rear_of(b: Box3) -> Plane3
    ensures { result ≡ rear3 b }
{
    Plane3 {
        a: 0,
        b: -1,
        c: 0,
        d: -b.y1,
    }
}

fn low_of(b: Box3) -> Plane3
    ensures { result ≡ low3 b }
{
    Plane3 {
        a: 0,
        b: 0,
        c: 1,
        d: b.z0,
    }
}

fn high_of(b: Box3) -> Plane3
    ensures { result ≡ high3 b }
{
    Plane3 {
        a: 0,
        b: 0,
        c: -1,
        d: -b.z1,
    }
}
