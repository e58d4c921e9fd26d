//! The term that is made from one inside mask: the mask's bits, but for those that keep no outside mask out.
ghost use Rattle.std.specs.Prelude.{◌≡◌, ◌≢◌, ◌^◌, ◌<◌, ◌≤◌, ◌++◌, map, length, All, IfOk, OnOk, slice_index};
ghost use Rattle.bc_cover.specs.Masks.{places_below};
ghost use Rattle.bc_cover.specs.Covers.{Holds};
ghost use Rattle.bc_cover.specs.Groups.{AreGroups};
ghost use Rattle.bc_cover.specs.Steps.{KeepOut, IsPrime};

use crate::choice::{drop_kept_out, idle_bit, near_masks};
use crate::groups::Grouped;
use crate::rows::{Kept, all_bits, mark_needed, neighbour_rows, rows_of, set_aside};
use crate::words::{has_bit, take_out};
use crate::{Blocks, Term};
use bc_num::Memory;
use std::alloc::Global;

/// The bits of the mask that together keep the outside masks out, as `needed`. Those that alone keep one out are found first.
/// Of the others one after the other is dropped, first the one that keeps out most of the inside masks that no term holds
/// yet. `Memory` where there is no room.
pub fn kept_bits(
    alloc: Global,
    mask: u64,
    inside: &Grouped<'_>,
    counts: &[usize],
    outside: &Grouped<'_>,
    n: u32,
) -> Result<Kept, Memory>
    requires few { n ≤ 64 }
    requires mask_below { mask < 2 ^ n }
    requires inside_groups { AreGroups inside.now.masks.now inside.now.groups.items }
    requires size { length counts.now ≡ length inside.now.masks.now }
    requires outside_groups { AreGroups outside.now.masks.now outside.now.groups.items }
    requires outside_below { All (λ other. other < 2 ^ n) outside.now.masks.now }
    requires apart { All (λ other. other ≢ mask) outside.now.masks.now }
    ensures { IfOk result (λ kept. KeepOut outside.now.masks.now mask n kept.needed kept.witnesses) }
{
    let mut kept = all_bits(n);
    let neighbours = neighbour_rows(alloc, outside, mask)?;
    mark_needed(&mut kept, &neighbours);
    let mut rows = rows_of(alloc, outside, mask, kept.needed)?;
    let mut near = if rows.is_empty() {
        Vec::new(alloc)
    } else {
        near_masks(alloc, inside, counts, mask, kept.needed)?
    };
    loop {
        mark_needed(&mut kept, &rows);
        set_aside(&mut rows, kept.needed);
        if rows.is_empty() {
            return Ok(kept);
        }
        drop_kept_out(&mut near, kept.needed);
        let i = idle_bit(&near, kept.bits, kept.bits ^ kept.needed);
        kept.bits = take_out(kept.bits, i);
    }
}

// Adds the witness of each of the bits, in ascending order.
fn add_blocks(blocks: &mut Blocks, witnesses: &[usize; 64], bits: u64, n: u32) -> Result<(), Memory>
    requires { n ≤ 64 }
    ensures { OnOk result (blocks.new ≡ blocks.old ++ map (slice_index witnesses.now) (places_below n bits)) }
{
    for i in 0..n {
        if has_bit(bits, i) {
            blocks.push(witnesses[i as usize])?;
        }
    }
    Ok(())
}

/// A term that holds the mask and no outside mask, and without each of its literals would hold one. It holds what it can of
/// the inside masks that no term holds yet, which have the count 0. Its `own` is still to be found. `Memory` where there is
/// no room.
pub fn term_of(
    alloc: Global,
    mask: u64,
    inside: &Grouped<'_>,
    counts: &[usize],
    outside: &Grouped<'_>,
    n: u32,
) -> Result<Term, Memory>
    requires few { n ≤ 64 }
    requires mask_below { mask < 2 ^ n }
    requires inside_groups { AreGroups inside.now.masks.now inside.now.groups.items }
    requires size { length counts.now ≡ length inside.now.masks.now }
    requires outside_groups { AreGroups outside.now.masks.now outside.now.groups.items }
    requires outside_below { All (λ other. other < 2 ^ n) outside.now.masks.now }
    requires apart { All (λ other. other ≢ mask) outside.now.masks.now }
    ensures prime { IfOk result (IsPrime outside.now.masks.now n) }
    ensures holds { IfOk result (λ t. Holds t mask) }
{
    let kept = kept_bits(alloc, mask, inside, counts, outside, n)?;
    let pos = mask & kept.needed;
    let neg = pos ^ kept.needed;
    let mut blocks = Blocks::new(alloc);
    add_blocks(&mut blocks, &kept.witnesses, pos, n)?;
    add_blocks(&mut blocks, &kept.witnesses, neg, n)?;
    Ok(Term {
        pos,
        neg,
        own: 0,
        blocks,
    })
}
