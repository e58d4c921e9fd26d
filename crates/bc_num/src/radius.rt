//! How far a circle reaches from its centre along an axis, told from its squared radius and rounded up. The answer is
//! the least of all whole numbers that are enough.
ghost use Rattle.std.specs.Prelude.{ℕ, ◌≤◌, ◌<◌, ◌*◌};

/// The least m with `m * m >= r2`: how far a circle of squared radius `r2` reaches from its centre along an axis,
/// rounded up. Any `r2` is allowed, and the answer is at most 65536.
pub fn reach(r2: u32) -> u32
    ensures enough { r2 ≤ result * result }
    ensures least { (m : ℕ) → m < result → m * m < r2 }
{
    let root = r2.isqrt();
    if root * root < r2 { root + 1 } else { root }
}
