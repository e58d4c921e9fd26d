//! Pseudorandom lines and planes, in general position but for rare cases.
ghost use Rattle.std.specs.Prelude.{◌≡◌, ◌*◌, length, IfOk};
ghost use Rattle.std.specs.List.{All};
ghost use Rattle.bc_algebra.specs.Within.{IsWithin};
ghost use Rattle.bc_space.specs.Lines.{IsSizedLine};
ghost use Rattle.bc_space.specs.Planes.{IsSizedPlane};

use bc_num::{List, Memory};
use bc_space::{Line2, Plane3};
use std::alloc::Global;

/// Lines with normals of at most 99 along each axis and offsets of at most 10,000.
pub fn lines(alloc: Global, count: usize, seed: u64) -> Result<List<Line2>, Memory>
    ensures { IfOk result (λ hs. (length hs ≡ count) × All IsSizedLine hs) }
{
    let mut all = List::new(alloc);
    let mut x = seed;
    for i in 0..count {
        let p = next(x);
        let q = next(p);
        let r = next(q);
        x = r;
        all.push(line(signed(q, far(p)), signed(r, far(q)), signed(p, far(r))))?;
    }
    Ok(all)
}

/// Planes with normals of at most 100 along each axis and offsets of at most 10,000.
pub fn planes(alloc: Global, count: usize, seed: u64) -> Result<List<Plane3>, Memory>
    ensures { IfOk result (λ hs. (length hs ≡ count) × All IsSizedPlane hs) }
{
    let mut all = List::new(alloc);
    let mut x = seed;
    for i in 0..count {
        let p = next(x);
        let q = next(p);
        let r = next(q);
        let s = next(r);
        x = s;
        all.push(plane(
            signed(q, near(p)),
            signed(r, near(q)),
            signed(s, near(r)),
            signed(p, far(s)),
        ))?;
    }
    Ok(all)
}

// A linear congruential generator, by the numbers of Knuth's MMIX.
fn next(x: u64) -> u64 {
    x.wrapping_mul(6364136223846793005)
        .wrapping_add(1442695040888963407)
}

fn near(x: u64) -> i64
    ensures { IsWithin 100 result }
{
    (x >> 33) as i64 % 101
}

fn far(x: u64) -> i64
    ensures { IsWithin 10000 result }
{
    (x >> 33) as i64 % 10001
}

fn signed(x: u64, n: i64) -> i64
    requires { IsWithin 10000 n }
    ensures { IsWithin 10000 result }
{
    if x & 1024 == 0 { n } else { -n }
}

fn line(a: i64, b: i64, d: i64) -> Line2
    requires a_near { IsWithin 10000 a }
    requires b_near { IsWithin 10000 b }
    requires d_near { IsWithin 10000 d }
    ensures { IsSizedLine result }
{
    let a = a % 100;
    let b = b % 100;
    if a == 0 && b == 0 {
        Line2 { a: 1, b: 0, d }
    } else {
        Line2 { a, b, d }
    }
}

fn plane(a: i64, b: i64, c: i64, d: i64) -> Plane3
    requires a_near { IsWithin 10000 a }
    requires b_near { IsWithin 10000 b }
    requires c_near { IsWithin 10000 c }
    requires d_near { IsWithin 10000 d }
    ensures { IsSizedPlane result }
{
    if a == 0 && b == 0 && c == 0 {
        Plane3 {
            a: 1,
            b: 0,
            c: 0,
            d,
        }
    } else {
        Plane3 { a, b, c, d }
    }
}
