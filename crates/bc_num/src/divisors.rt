//! Greatest common divisors of two, three and four whole numbers, by Euclid's algorithm, and exact quotients.
//! `specs/Divides` says what they are. `fractions`, `directions` and `directions3` divide with them.
ghost use Rattle.std.specs.Prelude.{◌≡◌, pos, ◌*ℤ◌, ◌<ℤ◌, ◌≤◌, ◌^◌, max};
ghost use Rattle.std.specs.Int.{IsGcd};
ghost use Rattle.bc_algebra.specs.Within.{IsWithin};
ghost use Rattle.bc_num.specs.Divides.{Divides, IsGcdOf, IsGcdOf3, IsGcdOf4};

/// The greatest common divisor of two whole numbers of at most 2^126 in size. It is at least 0, and it is 0 for 0 and 0
/// alone.
pub fn gcd(a: i128, b: i128) -> i128
    requires a_near { IsWithin (2 ^ 126) a }
    requires b_near { IsWithin (2 ^ 126) b }
    ensures greatest { IsGcdOf a b result }
    ensures near { IsWithin (2 ^ 126) result }
{
    gcd_of_sizes(a.unsigned_abs(), b.unsigned_abs()) as i128
}

/// The greatest common divisor of three whole numbers of at most 2^126 in size, at least 0.
pub(crate) fn gcd_of_three(a: i128, b: i128, c: i128) -> i128
    requires a_near { IsWithin (2 ^ 126) a }
    requires b_near { IsWithin (2 ^ 126) b }
    requires c_near { IsWithin (2 ^ 126) c }
    ensures { IsGcdOf3 a b c result }
{
    gcd(gcd(a, b), c)
}

/// The greatest common divisor of four whole numbers of at most 2^126 in size, at least 0.
pub(crate) fn gcd_of_four(a: i128, b: i128, c: i128, d: i128) -> i128
    requires a_near { IsWithin (2 ^ 126) a }
    requires b_near { IsWithin (2 ^ 126) b }
    requires c_near { IsWithin (2 ^ 126) c }
    requires d_near { IsWithin (2 ^ 126) d }
    ensures { IsGcdOf4 a b c d result }
{
    gcd(gcd(a, b), gcd(c, d))
}

/// The exact quotient of a multiple of `g`, which is above 0.
pub(crate) fn divided(a: i128, g: i128) -> i128
    requires positive { pos 0 <ℤ g }
    requires multiple { Divides g a }
    ensures { result *ℤ g ≡ a }
{
    a / g
}

/// The same for a number of at most 2^40 in size, as the quotient is too.
pub(crate) fn divided_small(a: i64, g: i128) -> i64
    requires positive { pos 0 <ℤ g }
    requires multiple { Divides g a }
    requires near { IsWithin (2 ^ 40) a }
    ensures exact { result *ℤ g ≡ a }
    ensures near { IsWithin (2 ^ 40) result }
{
    divided(a as i128, g) as i64
}

// Euclid's algorithm.
fn gcd_of_sizes(a: u128, b: u128) -> u128
    ensures common { IsGcd a b result }
    ensures bounded { result ≤ max a b }
{
    let mut x = a;
    let mut y = b;
    while y != 0 {
        let rest = x % y;
        x = y;
        y = rest;
    }
    x
}
