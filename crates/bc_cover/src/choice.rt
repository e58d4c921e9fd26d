//! Which bit of a mask is dropped next: one that keeps out inside masks that no term holds yet. Any choice gives a lawful
//! term; this one gives few terms.
ghost use Rattle.std.specs.Prelude.{◌≡◌, ◌<◌, length};
ghost use Rattle.std.specs.Int.{bit_at};
ghost use Rattle.bc_cover.specs.Groups.{AreGroups};

use crate::groups::Grouped;
use crate::words::{has_bit, lowest_bit, take_out};
use bc_num::Memory;
use std::alloc::Global;

// At most so many masks are scored. More of them gave no fewer terms, and scoring would take most of the time.
const SAMPLE: usize = 1 << 14;

// A mask that differs in c of the kept bits adds 2 to the power of 38 - c to the score of each of them: those that come in
// soon count most, and far ones, however many, do not outweigh them.
const HALVINGS: u32 = 38;

// Some of the masks, evenly spread.
fn sample(alloc: Global, masks: &[u64]) -> Result<Vec<u64>, Memory> {
    let step = masks.len() / SAMPLE + 1;
    let mut some = Vec::new(alloc);
    for mask in masks.iter().step_by(step) {
        some.push(*mask)?;
    }
    Ok(some)
}

/// The differences to `mask` of some of the inside masks that no term holds yet and no needed bit keeps out. `Memory` where
/// there is no room.
pub fn near_masks(
    alloc: Global,
    inside: &Grouped<'_>,
    counts: &[usize],
    mask: u64,
    needed: u64,
) -> Result<Vec<u64>, Memory>
    requires groups { AreGroups inside.now.masks.now inside.now.groups.items }
    requires size { length counts.now ≡ length inside.now.masks.now }
{
    let pos = mask & needed;
    let places = inside.places(alloc, pos, pos ^ needed)?;
    let mut near = Vec::new(alloc);
    for place in &places {
        if counts[*place] == 0 {
            near.push(inside.masks[*place] ^ mask)?;
        }
    }
    sample(alloc, &near)
}

/// Drops the masks that a needed bit keeps out.
pub fn drop_kept_out(near: &mut Vec<u64>, needed: u64) {
    near.retain(|difference| *difference & needed == 0);
}

// The fewer bits keep a mask out, the more they score by it.
fn add_scores(scores: &mut [u64; 64], met: u64) {
    let weight = (1u64 << HALVINGS) >> met.count_ones().min(HALVINGS);
    let mut rest = met;
    while rest != 0 {
        let i = lowest_bit(rest);
        scores[i as usize] = scores[i as usize].saturating_add(weight);
        rest = take_out(rest, i);
    }
}

// The one of these bits that has the greatest score, the lowest of equal ones.
fn best_bit(scores: &[u64; 64], free: u64) -> u32
    requires { 0 < free }
    ensures within { result < 64 }
    ensures free { bit_at free result ≡ 1 }
{
    let mut best = lowest_bit(free);
    for i in 0..64 {
        if has_bit(free, i) && scores[i as usize] > scores[best as usize] {
            best = i;
        }
    }
    best
}

/// The one of the `free` bits to be dropped, while `bits` are kept.
pub fn idle_bit(near: &[u64], bits: u64, free: u64) -> u32
    requires { 0 < free }
    ensures within { result < 64 }
    ensures free { bit_at free result ≡ 1 }
{
    let mut scores = [0u64; 64];
    for difference in near {
        add_scores(&mut scores, *difference & bits);
    }
    best_bit(&scores, free)
}
