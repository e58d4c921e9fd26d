//! The primitive vector on the line of a vector of the plane; the zero vector has none. `divisors` has the greatest
//! common divisor, `specs/Directions` says which vector it is, and `directions3` does the same in space.
ghost use Rattle.std.specs.Prelude.{◌≡◌, ◌⊎◌, ◌^◌, ◌↔◌, IsTrue, IsNone, IfSome};
ghost use Rattle.bc_algebra.specs.Within.{IsWithin};
ghost use Rattle.bc_num.specs.Directions.{IsZero2, IsLeading2, IsOverGcd2, IsPrimitiveOf2, opposite2};

use crate::V2;
use crate::divisors::{divided_small, gcd};

/// The primitive vector along the line of `v`: `v` over the greatest common divisor of its components, with the sign
/// that makes its first non-zero component positive. `None` exactly where `v` is zero. The components of `v` are at most
/// 2^40 in size.
pub fn primitive2(v: V2) -> Option<V2>
    requires x_near { IsWithin (2 ^ 40) v.x }
    requires y_near { IsWithin (2 ^ 40) v.y }
    ensures none { IsNone result ↔ IsZero2 v }
    ensures primitive { IfSome result (IsPrimitiveOf2 v) }
{
    if is_zero(v) {
        None
    } else {
        Some(turned(over_gcd(v)))
    }
}

fn is_zero(v: V2) -> bool
    ensures { IsTrue result ↔ IsZero2 v }
{
    v.x == 0 && v.y == 0
}

// The shortest whole vector in the direction of v.
fn over_gcd(v: V2) -> V2
    requires x_near { IsWithin (2 ^ 40) v.x }
    requires y_near { IsWithin (2 ^ 40) v.y }
    requires some { ¬ IsZero2 v }
    ensures over { IsOverGcd2 v result }
    ensures x_near { IsWithin (2 ^ 40) result.x }
    ensures y_near { IsWithin (2 ^ 40) result.y }
    ensures some { ¬ IsZero2 result }
{
    let g = gcd(v.x as i128, v.y as i128);
    let x = divided_small(v.x, g);
    let y = divided_small(v.y, g);
    V2 { x, y }
}

// Of u and its opposite the one whose first component that is not 0 is above 0.
fn turned(u: V2) -> V2
    requires x_near { IsWithin (2 ^ 40) u.x }
    requires y_near { IsWithin (2 ^ 40) u.y }
    requires some { ¬ IsZero2 u }
    ensures leading { IsLeading2 result }
    ensures either { (result ≡ u) ⊎ (result ≡ opposite2 u) }
{
    if u.x < 0 || (u.x == 0 && u.y < 0) {
        V2 { x: -u.x, y: -u.y }
    } else {
        u
    }
}
