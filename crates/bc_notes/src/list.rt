//! The notes of all terms, in the order in which they are written.
ghost use Rattle.std.specs.Prelude.{◌≡◌, ◌<◌, ◌≤◌, ◌+◌, ◌-◌, ◌^◌, [], ◌∷◌, ◌++◌, map, length, OnOk, IfOk};
ghost use Rattle.std.specs.List.{AllZip};
ghost use Rattle.bc_cover.specs.Masks.{places_below};
ghost use Rattle.bc_tree.specs.Cuts.{product_of};
ghost use Rattle.bc_text.specs.Numbered.{Ascend, EndEarly};
ghost use Rattle.bc_notes.specs.Products.{products_of, literals_of};
ghost use Rattle.bc_notes.specs.Noted.{noted_literals, noted_product, noted};
ghost use Rattle.bc_notes.specs.Chosen.{own_mark, out_mark, seen_of, IsAlone, IsChosen, IsNoteOf, AddsNotes};
ghost use Rattle.bc_notes.specs.Bests.{literal_of, word_of, AreOuts};

use crate::Shown;
use crate::best::Best;
use crate::outs::{Masks, out_points, seen_masks};
use crate::owns::own_points;
use bc_cover::{Term, has_bit};
use bc_num::Memory;
use bc_text::{Mark, Note, Spot};
use std::alloc::Global;

fn mark_own(spot: Option<Spot>) -> Mark
    ensures { result ≡ own_mark spot }
{
    match spot {
        Some(spot) => Mark::Own(spot),
        None => Mark::OwnUndecided,
    }
}

fn mark_out(spot: Option<Spot>) -> Mark
    ensures { result ≡ out_mark spot }
{
    match spot {
        Some(spot) => Mark::Out(spot),
        None => Mark::OutUndecided,
    }
}

// The notes of the literals of one sign, the first of which has the number `first`. It gives how many there are.
fn add_literals(
    notes: &mut Vec<Note>,
    first: u128,
    bests: &[Best],
    word: u64,
    n: u32,
) -> Result<usize, Memory>
    requires few { n ≤ 64 }
    requires len { length bests.now ≡ n }
    requires early { first < 2 ^ 99 }
    ensures added { (inside : _) (outside : _) (products : _) (p : _) (sign : _) → word ≡ word_of sign p → AreOuts sign p outside bests.now → OnOk result (AddsNotes (IsNoteOf inside outside products) (noted_literals first p (map (literal_of sign) (places_below n word))) notes.old.items notes.new.items) }
    ensures count { IfOk result (λ k. k ≡ length (places_below n word)) }
{
    let mut k = 0;
    for i in 0..n {
        if has_bit(word, i) {
            notes.push(Note {
                place: first + k as u128,
                mark: mark_out(bests[i as usize].spot),
            })?;
            k += 1;
        }
    }
    Ok(k)
}

// The notes of a term, whose cut has the number `place` and whose own point is `own`, and of its literals. It gives the
// number of the node behind the term.
fn add_term(
    alloc: Global,
    notes: &mut Vec<Note>,
    place: u128,
    own: Option<Spot>,
    outside: &Masks<'_>,
    t: &Term,
    n: u32,
) -> Result<u128, Memory>
    requires few { n ≤ 64 }
    requires early { place < 2 ^ 98 }
    requires seen { outside.now.seen.now ≡ seen_of outside.now.all.now }
    ensures added { (inside : _) (products : _) (i : _) → IsChosen (IsAlone products i) inside own → OnOk result (AddsNotes (IsNoteOf inside outside.now.all.now products) (noted_product n place i (product_of t.now)) notes.old.items notes.new.items) }
    ensures next { IfOk result (λ m. m ≡ place + 3 + length (literals_of n (product_of t.now))) }
    ensures soon { IfOk result (λ m. m ≤ place + 131) }
{
    let outs = out_points(alloc, outside, t, n)?;
    notes.push(Note {
        place,
        mark: mark_own(own),
    })?;
    let p = add_literals(notes, place + 3, &outs.positive, t.pos, n)?;
    let q = add_literals(notes, place + 3 + p as u128, &outs.negative, t.neg, n)?;
    Ok(place + 3 + p as u128 + q as u128)
}

/// The notes of a cover's terms and literals over `n` half-spaces, in the order in which they are written. Before each term
/// stands a point of an inside mask that this term alone holds, before each literal one of an outside mask that its term
/// holds once the literal is taken out; and none where no such mask has a point. `Memory` where there is no room.
///
/// The time grows as terms times (`n`, and the inside masks that have a point, and the outside masks that have one), beside
/// one pass over all masks. A walk over the terms for an inside mask ends at the second term that holds it; and the outside
/// masks are passed over once for a term, only if a named mask of its literals has no point or there are at most 1,024.
pub fn notes_of(
    alloc: Global,
    inside: &[Shown],
    outside: &[Shown],
    terms: &[Term],
    n: u32,
) -> Result<Vec<Note>, Memory>
    requires few { n ≤ 64 }
    ensures each { IfOk result (λ v. AllZip (IsNoteOf inside.now outside.now (products_of terms.now)) (noted n (products_of terms.now)) v.items) }
    ensures ascend { IfOk result (λ v. Ascend v.items) }
    ensures early { IfOk result (λ v. EndEarly v.items) }
{
    let owns = own_points(alloc, inside, terms)?;
    // Most masks of regions with arcs have no point, and where none will do, each that has one is looked at.
    let seen = seen_masks(alloc, outside)?;
    let outs = Masks {
        all: outside,
        seen: &seen,
    };
    let mut notes = Vec::new(alloc);
    let mut place = 1;
    for i in 0..terms.len() {
        place = add_term(alloc, &mut notes, place, owns[i].spot, &outs, &terms[i], n)?;
    }
    Ok(notes)
}
