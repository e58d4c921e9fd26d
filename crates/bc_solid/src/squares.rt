//! The squared distance of two places of the plane, which the check of arcs and the crates above have in common.
ghost use Rattle.std.specs.Prelude.{◌≡◌};
ghost use Rattle.bc_algebra.specs.Within.{IsWithin};
ghost use Rattle.bc_num.specs.Measures.{square_between};
ghost use Rattle.bc_num.specs.Sizes.{AreCoords};

use bc_num::V2;

/// The squared distance of two places of an input, in squares of the unit of coordinates. At most 8,372,232.
pub fn square_of(a: V2, b: V2) -> i64
    requires a_near { AreCoords a }
    requires b_near { AreCoords b }
    ensures square { result ≡ square_between a b }
    ensures near { IsWithin 8372232 result }
{
    let x = b.x - a.x;
    let y = b.y - a.y;
    x * x + y * y
}
