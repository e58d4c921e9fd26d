//! Points of literals: each of a mask that the term holds once the literal is taken out.
ghost use Rattle.std.specs.Prelude.{◌≡◌, ◌<◌, ◌≤◌, ℕ, IsSome, IfOk, false, length, slice_index_or};
ghost use Rattle.std.specs.Int.{bit_at};
ghost use Rattle.bc_cover.specs.Masks.{without_bit};
ghost use Rattle.bc_tree.specs.Cuts.{product_of};
ghost use Rattle.bc_notes.specs.Products.{HoldsMask};
ghost use Rattle.bc_notes.specs.Chosen.{IsSpotWhere, seen_of};
ghost use Rattle.bc_notes.specs.Bests.{IsSpotOf, AllAt, AreSteps, AreOuts, LetsIn};
ghost use Rattle.bc_notes.specs.declared.sign.Sign.TheVariants.{Positive, Negative};

use crate::Shown;
use crate::best::Best;
use crate::bests::{improve_at, improve_each};
use crate::sign::Sign;
use bc_cover::{Term, has_bit, is_admitted, lowest_bit, take_out};
use bc_num::Memory;
use bc_text::Spot;
use bc_tree::Product;
use std::alloc::Global;

/// Masks with their points, and those of them that have one.
#[derive(Clone, Copy)]
pub struct Masks<'a> {
    pub all: &'a [Shown],
    pub seen: &'a [Shown],
}

/// The masks that have a point. `Memory` where there is no room.
pub fn seen_masks(alloc: Global, masks: &[Shown]) -> Result<Vec<Shown>, Memory>
    ensures { IfOk result (λ v. v.items ≡ seen_of masks.now) }
{
    let mut seen = Vec::new(alloc);
    for m in masks {
        if m.spot.is_some() {
            seen.push(*m)?;
        }
    }
    Ok(seen)
}

// How many literals of the term stand before that of this sign at half-space `i`.
fn literals_before(t: &Term, sign: Sign, i: u32) -> usize
    requires { i < 64 }
{
    let below = (1u64 << i) - 1;
    match sign {
        Sign::Positive => (t.pos & below).count_ones() as usize,
        Sign::Negative => (t.pos.count_ones() + (t.neg & below).count_ones()) as usize,
    }
}

// The place of the outside mask that the cover names for literal `k`.
fn named_block(t: &Term, k: usize) -> usize {
    if k < t.blocks.len() {
        t.blocks.get(k)
    } else {
        0
    }
}

// The point of the mask, where the product holds the mask.
fn out_at(m: &Shown, p: Product) -> Option<Spot>
    ensures { IsSpotWhere (HoldsMask p m.now.mask) m.now.spot result }
{
    if is_admitted(p.pos, p.neg, m.mask) {
        m.spot
    } else {
        None
    }
}

// The point of the mask that the cover names for a literal, where the term has the literal and holds the mask without it.
fn named_out(outside: &[Shown], t: &Term, sign: Sign, i: u32) -> Option<Spot>
    requires { i < 64 }
    ensures { IsSpotOf (LetsIn (product_of t.now) sign i) outside.now result }
{
    let p = Product::of(t);
    if !has_bit(sign.word(p), i) {
        return None;
    }
    let named = named_block(t, literals_before(t, sign, i));
    if named < outside.len() {
        out_at(&outside[named], sign.without(p, i))
    } else {
        None
    }
}

// The points of the masks that the cover names for the literals of one sign, at the places of their half-spaces.
fn named_outs(
    alloc: Global,
    outside: &[Shown],
    t: &Term,
    sign: Sign,
    n: u32,
) -> Result<Vec<Best>, Memory>
    requires few { n ≤ 64 }
    ensures len { IfOk result (λ v. length v.items ≡ n) }
    ensures each { IfOk result (λ v. AllAt (λ i spot. IsSpotOf (LetsIn (product_of t.now) sign i) outside.now spot) v.items) }
{
    let mut bests = Vec::with_capacity(alloc, n as usize)?;
    for i in 0..n {
        let named = named_out(outside, t, sign, i);
        bests.push(Best::new(named, outside.len()))?;
    }
    Ok(bests)
}

// Whether other points are looked at for one of the literals with these bits.
fn is_any_open(bests: &[Best], word: u64) -> bool
    requires { length bests.now ≤ 64 }
    ensures { result ≡ false → AllAt (λ i spot. bit_at word i ≡ 1 → IsSome spot) bests.now }
{
    for i in 0..bests.len() {
        if has_bit(word, i as u32) && bests[i].is_open() {
            return true;
        }
    }
    false
}

// Looks at the point of a mask for the literals of one sign. Of their bits `missing` keep the mask out, and `other` of the
// bits of the other sign: it will do for all of them, or for one alone, or for none.
fn improve(bests: &mut Vec<Best>, missing: u64, other: u64, spot: &Option<Spot>)
    ensures len { length bests.new.items ≡ length bests.old.items }
    ensures each { AreSteps (λ i. (other ≡ 0) × (without_bit missing i ≡ 0)) spot.now bests.old.items bests.new.items }
{
    if other != 0 {
        return;
    }
    if missing == 0 {
        improve_each(bests, spot);
        return;
    }
    let i = lowest_bit(missing);
    if take_out(missing, i) == 0 && (i as usize) < bests.len() {
        improve_at(bests, i as usize, spot);
    }
}

// Looks at the points of all masks for all literals of the product.
fn improve_all(positive: &mut Vec<Best>, negative: &mut Vec<Best>, p: Product, outside: &Masks<'_>)
    requires seen { outside.now.seen.now ≡ seen_of outside.now.all.now }
    requires positive { AllAt (λ i spot. IsSpotOf (LetsIn p Positive i) outside.now.all.now spot) positive.old.items }
    requires negative { AllAt (λ i spot. IsSpotOf (LetsIn p Negative i) outside.now.all.now spot) negative.old.items }
    ensures positive_len { length positive.new.items ≡ length positive.old.items }
    ensures negative_len { length negative.new.items ≡ length negative.old.items }
    ensures positive { AreOuts Positive p outside.now.all.now positive.new.items }
    ensures negative { AreOuts Negative p outside.now.all.now negative.new.items }
{
    for m in outside.seen {
        let lacks = p.pos ^ (p.pos & m.mask);
        let extra = p.neg & m.mask;
        improve(positive, lacks, extra, &m.spot);
        improve(negative, extra, lacks, &m.spot);
    }
}

/// The points of a term's literals, those of each sign at the places of their half-spaces.
#[derive(Drop)]
pub struct Outs {
    pub positive: Vec<Best>,
    pub negative: Vec<Best>,
}

/// For each literal of the term over `n` half-spaces a point of a mask that the term holds once the literal is taken out,
/// where one of the masks is such and has a point: that of the mask that the cover names; but of at most 1,024 masks one with
/// the least denominator. Only where a named mask has no point is a longer list looked through, once for all literals.
/// `Memory` where there is no room.
pub fn out_points(alloc: Global, outside: &Masks<'_>, t: &Term, n: u32) -> Result<Outs, Memory>
    requires few { n ≤ 64 }
    requires seen { outside.now.seen.now ≡ seen_of outside.now.all.now }
    ensures positive_len { IfOk result (λ o. length o.positive.items ≡ n) }
    ensures negative_len { IfOk result (λ o. length o.negative.items ≡ n) }
    ensures positive { IfOk result (λ o. AreOuts Positive (product_of t.now) outside.now.all.now o.positive.items) }
    ensures negative { IfOk result (λ o. AreOuts Negative (product_of t.now) outside.now.all.now o.negative.items) }
{
    let mut positive = named_outs(alloc, outside.all, t, Sign::Positive, n)?;
    let mut negative = named_outs(alloc, outside.all, t, Sign::Negative, n)?;
    if is_any_open(&positive, t.pos) || is_any_open(&negative, t.neg) {
        improve_all(&mut positive, &mut negative, Product::of(t), outside);
    }
    Ok(Outs { positive, negative })
}
