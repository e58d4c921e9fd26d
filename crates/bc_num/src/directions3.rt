//! The primitive vector on the line of a vector of space; the zero vector has none. `divisors` has the greatest common
//! divisor, `specs/Directions3` says which vector it is, and `directions` does the same in the plane.
ghost use Rattle.std.specs.Prelude.{◌≡◌, ◌⊎◌, ◌^◌, ◌↔◌, IsTrue, IsFalse, IsNone, IfSome};
ghost use Rattle.bc_algebra.specs.Within.{IsWithin};
ghost use Rattle.bc_num.specs.Directions3.{IsZero3, IsLeading3, IsOverGcd3, IsPrimitiveOf3, opposite3};

use crate::V3;
use crate::divisors::{divided_small, gcd_of_three};

/// The primitive vector along the line of `v`: `v` over the greatest common divisor of its components, with the sign
/// that makes its first non-zero component positive. `None` exactly where `v` is zero. The components of `v` are at most
/// 2^40 in size.
pub fn primitive3(v: V3) -> Option<V3>
    requires x_near { IsWithin (2 ^ 40) v.x }
    requires y_near { IsWithin (2 ^ 40) v.y }
    requires z_near { IsWithin (2 ^ 40) v.z }
    ensures none { IsNone result ↔ IsZero3 v }
    ensures primitive { IfSome result (IsPrimitiveOf3 v) }
{
    if is_zero(v) {
        None
    } else {
        Some(turned(over_gcd(v)))
    }
}

fn is_zero(v: V3) -> bool
    ensures { IsTrue result ↔ IsZero3 v }
{
    v.x == 0 && v.y == 0 && v.z == 0
}

// The shortest whole vector in the direction of v.
fn over_gcd(v: V3) -> V3
    requires x_near { IsWithin (2 ^ 40) v.x }
    requires y_near { IsWithin (2 ^ 40) v.y }
    requires z_near { IsWithin (2 ^ 40) v.z }
    requires some { ¬ IsZero3 v }
    ensures over { IsOverGcd3 v result }
    ensures x_near { IsWithin (2 ^ 40) result.x }
    ensures y_near { IsWithin (2 ^ 40) result.y }
    ensures z_near { IsWithin (2 ^ 40) result.z }
    ensures some { ¬ IsZero3 result }
{
    let g = gcd_of_three(v.x as i128, v.y as i128, v.z as i128);
    let x = divided_small(v.x, g);
    let y = divided_small(v.y, g);
    let z = divided_small(v.z, g);
    V3 { x, y, z }
}

// Of u and its opposite the one whose first component that is not 0 is above 0.
fn turned(u: V3) -> V3
    requires x_near { IsWithin (2 ^ 40) u.x }
    requires y_near { IsWithin (2 ^ 40) u.y }
    requires z_near { IsWithin (2 ^ 40) u.z }
    requires some { ¬ IsZero3 u }
    ensures leading { IsLeading3 result }
    ensures either { (result ≡ u) ⊎ (result ≡ opposite3 u) }
{
    if is_turned(u) { opposite(u) } else { u }
}

// Whether the first component that is not 0 is below 0.
fn is_turned(u: V3) -> bool
    requires some { ¬ IsZero3 u }
    ensures yes { IsTrue result → IsLeading3 (opposite3 u) }
    ensures no { IsFalse result → IsLeading3 u }
{
    u.x < 0 || (u.x == 0 && (u.y < 0 || (u.y == 0 && u.z < 0)))
}

fn opposite(u: V3) -> V3
    requires x_near { IsWithin (2 ^ 40) u.x }
    requires y_near { IsWithin (2 ^ 40) u.y }
    requires z_near { IsWithin (2 ^ 40) u.z }
    ensures { result ≡ opposite3 u }
{
    V3 {
        x: -u.x,
        y: -u.y,
        z: -u.z,
    }
}
