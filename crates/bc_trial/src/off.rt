//! The stair as an OFF text.
ghost use Rattle.std.specs.Prelude.{◌≡◌, ◌≤◌, ◌<◌, ◌+◌, ◌^◌, ◌++◌, map, OnOk, IfOk};
ghost use Rattle.std.specs.List.{flat_map, range_with_len};
ghost use Rattle.bc_trial.specs.Texts.{row, outline, front as front_row, next as next_place, side, off_text};

use crate::pieces::{put, put_number};
use bc_num::{List, Memory};
use std::alloc::Global;

/// The greatest number of steps of a generated stair.
pub const MOST_OFF: u32 = 18;

/// The OFF text of a stair of `n` steps, 1 to `MOST_OFF`: two outlines of 2n + 2 places, at y = 0 and y = 10, the faces of
/// the two, and a face of four corners between each two neighbouring places. `Memory` where there is no room for it.
pub fn trial_off(alloc: Global, n: u32) -> Result<List<u8>, Memory>
    requires least { 1 ≤ n }
    requires most { n ≤ MOST_OFF }
    ensures { IfOk result (λ bytes. bytes ≡ off_text n) }
{
    let m = 2 * n + 2;
    let mut text = Vec::new(alloc);
    put(&mut text, b"OFF ")?;
    put_row(&mut text, &[2 * m, m + 2, 0])?;
    put_outline(&mut text, n, 0)?;
    put_outline(&mut text, n, 10)?;
    put_row(&mut text, front(alloc, m, 0)?.as_slice())?;
    put_row(&mut text, front(alloc, m, m)?.as_slice())?;
    put_sides(&mut text, m)?;
    Ok(List::from_vec(text))
}

// A line of numbers.
fn put_row(text: &mut Vec<u8>, numbers: &[u32]) -> Result<(), Memory>
    ensures { OnOk result (text.new.items ≡ text.old.items ++ row numbers.now) }
{
    for (i, n) in numbers.iter().enumerate() {
        if i > 0 {
            put(text, b" ")?;
        }
        put_number(text, *n)?;
    }
    put(text, b"\n")
}

// The places round a stair of `n` steps, at depth `y`.
fn put_outline(text: &mut Vec<u8>, n: u32, y: u32) -> Result<(), Memory>
    requires { n < 2 ^ 30 }
    ensures { OnOk result (text.new.items ≡ text.old.items ++ flat_map row (outline n y)) }
{
    put_row(text, &[0, y, 0])?;
    for i in 1..n + 1 {
        put_row(text, &[i - 1, y, i])?;
        put_row(text, &[i, y, i])?;
    }
    put_row(text, &[n, y, 0])
}

// The face of `m` places, the first of which has the number `first`.
fn front(alloc: Global, m: u32, first: u32) -> Result<Vec<u32>, Memory>
    requires { first + m < 2 ^ 32 }
    ensures { IfOk result (λ v. v.items ≡ front_row m first) }
{
    let mut numbers = Vec::new(alloc);
    numbers.push(m)?;
    for i in first..first + m {
        numbers.push(i)?;
    }
    Ok(numbers)
}

// The faces between two outlines of `m` places.
fn put_sides(text: &mut Vec<u8>, m: u32) -> Result<(), Memory>
    requires { m < 2 ^ 30 }
    ensures { OnOk result (text.new.items ≡ text.old.items ++ flat_map row (map (side m) (range_with_len 0 m))) }
{
    for k in 0..m {
        let next = next(m, k);
        put_row(text, &[4, k, next, m + next, m + k])?;
    }
    Ok(())
}

// The place behind place `k` of `m` places in a round.
fn next(m: u32, k: u32) -> u32
    requires { k < m }
    ensures { result ≡ next_place m k }
{
    if k + 1 == m { 0 } else { k + 1 }
}
