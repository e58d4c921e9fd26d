//! Rational points in lowest terms, in the plane and in space: all numbers of a point over their greatest common
//! divisor. `divisors` has that divisor, and `specs/Points` says which points are the same.
ghost use Rattle.std.specs.Prelude.{◌^◌};
ghost use Rattle.bc_algebra.specs.Within.{IsWithin};
ghost use Rattle.bc_num.specs.Points.{IsSamePoint2, IsReduced2, IsNoLarger2, IsSamePoint3, IsReduced3, IsNoLarger3};

use crate::divisors::{divided, gcd_of_four, gcd_of_three};
use crate::{P2, P3};

/// The same rational point in lowest terms: its three numbers have the greatest common divisor 1. The numbers of `p` are
/// at most 2^126 in size, and no number grows.
pub fn reduce2(p: P2) -> P2
    requires x_near { IsWithin (2 ^ 126) p.x }
    requires y_near { IsWithin (2 ^ 126) p.y }
    requires w_near { IsWithin (2 ^ 126) p.w }
    ensures same { IsSamePoint2 p result }
    ensures reduced { IsReduced2 result }
    ensures no_larger { IsNoLarger2 p result }
{
    let g = gcd_of_three(p.x, p.y, p.w);
    let x = divided(p.x, g);
    let y = divided(p.y, g);
    let w = divided(p.w, g);
    P2 { x, y, w }
}

/// The same rational point of space in lowest terms: its four numbers have the greatest common divisor 1. The numbers of
/// `p` are at most 2^126 in size, and no number grows.
pub fn reduce3(p: P3) -> P3
    requires x_near { IsWithin (2 ^ 126) p.x }
    requires y_near { IsWithin (2 ^ 126) p.y }
    requires z_near { IsWithin (2 ^ 126) p.z }
    requires w_near { IsWithin (2 ^ 126) p.w }
    ensures same { IsSamePoint3 p result }
    ensures reduced { IsReduced3 result }
    ensures no_larger { IsNoLarger3 p result }
{
    let g = gcd_of_four(p.x, p.y, p.z, p.w);
    let x = divided(p.x, g);
    let y = divided(p.y, g);
    let z = divided(p.z, g);
    let w = divided(p.w, g);
    P3 { x, y, z, w }
}
