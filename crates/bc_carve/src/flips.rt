//! Which elements of pieces change whether they hold a mask, when one alone is taken out.
ghost use Rattle.std.specs.Prelude.{◌≡◌, ◌+◌, ◌-◌, ◌^◌, ◌≤◌, ◌<◌, ◌++◌, ◌∷◌, [], min, replicate, OnOk, IsTrue, false};
ghost use Rattle.bc_carve.specs.Shape.{shape, shapes};
ghost use Rattle.bc_carve.specs.Flips.{bits_of as bit_count, elements, elements_in as all_elements, flips, flips_in, flips_of, pos_flips, neg_flips, holders, trues_from};

use crate::Piece;
use crate::piece::{holds, is_held};
use bc_cover::{has_bit, is_admitted, lowest_bit, take_out};
use bc_num::Memory;

fn bits_of(word: u64) -> usize
    ensures { result ≡ bit_count word }
{
    word.count_ones() as usize
}

/// How many elements the pieces have; `usize::MAX` for that many and more.
#[cycle(elements)]
pub fn elements_in(pieces: &[Piece]) -> usize
    ensures { result ≡ min (all_elements (shapes pieces.now)) (2 ^ 64 - 1) }
{
    let mut count: usize = 0;
    for piece in pieces {
        count = count.saturating_add(1).saturating_add(elements_of(piece));
    }
    count
}

#[cycle(elements)]
fn elements_of(piece: &Piece) -> usize
    ensures { result ≡ min (elements (shape piece.now)) (2 ^ 64 - 1) }
{
    let own = bits_of(piece.pos) + bits_of(piece.neg);
    elements_in(piece.holes.as_slice()).saturating_add(own)
}

// How many of the pieces hold the mask, but 2 for more.
fn holders_of(pieces: &[Piece], mask: u64) -> usize
    ensures { result ≡ min (holders mask (shapes pieces.now)) 2 }
{
    let mut count: usize = 0;
    for piece in pieces {
        if count < 2 && holds(piece, mask) {
            count += 1;
        }
    }
    count
}

// Puts the place behind the others, if it is one.
fn put_if(places: &mut Vec<usize>, is_one: bool, place: usize) -> Result<(), Memory>
    ensures { OnOk result (places.new.items ≡ places.old.items ++ trues_from place (is_one ∷ [])) }
{
    if is_one {
        places.push(place)?;
    }
    Ok(())
}

// Adds the places of the positive literals without which the product admits the mask. The first literal is at `start`.
fn add_pos(
    pos: u64,
    neg: u64,
    mask: u64,
    start: usize,
    places: &mut Vec<usize>,
) -> Result<(), Memory>
    requires { start ≤ 2 ^ 63 }
    ensures { OnOk result (places.new.items ≡ places.old.items ++ trues_from start (pos_flips pos neg mask)) }
{
    let mut at = start;
    for i in 0..64 {
        if has_bit(pos, i) {
            put_if(places, is_admitted(take_out(pos, i), neg, mask), at)?;
            at += 1;
        }
    }
    Ok(())
}

// Adds the places of the negative literals without which the product admits the mask. The first literal is at `start`.
fn add_neg(
    pos: u64,
    neg: u64,
    mask: u64,
    start: usize,
    places: &mut Vec<usize>,
) -> Result<(), Memory>
    requires { start ≤ 2 ^ 63 }
    ensures { OnOk result (places.new.items ≡ places.old.items ++ trues_from start (neg_flips pos neg mask)) }
{
    let mut at = start;
    for i in 0..64 {
        if has_bit(neg, i) {
            put_if(places, is_admitted(pos, take_out(neg, i), mask), at)?;
            at += 1;
        }
    }
    Ok(())
}

// Whether one literal alone, or none, keeps the product from the mask.
fn lacks_one(pos: u64, neg: u64, mask: u64) -> bool
    ensures pos { result ≡ false → pos_flips pos neg mask ≡ replicate (bit_count pos) false }
    ensures neg { result ≡ false → neg_flips pos neg mask ≡ replicate (bit_count neg) false }
{
    let lacking = (pos ^ (pos & mask)) | (neg & mask);
    lacking == 0 || take_out(lacking, lowest_bit(lacking)) == 0
}

/// Adds the places of those elements of the pieces without which they hold the mask where they did not, or do not where they
/// did. The first element is at `start`.
#[cycle(flips)]
pub fn add_flips(
    pieces: &[Piece],
    mask: u64,
    start: usize,
    places: &mut Vec<usize>,
) -> Result<(), Memory>
    requires { start + all_elements (shapes pieces.now) ≤ 2 ^ 63 }
    ensures { OnOk result (places.new.items ≡ places.old.items ++ trues_from start (flips mask (shapes pieces.now))) }
{
    let holding = holders_of(pieces, mask);
    let mut at = start;
    for piece in pieces {
        add_flips_of(piece, mask, holding, at, places)?;
        at += 1 + elements_of(piece);
    }
    Ok(())
}

// The same for one of the pieces, of which so many hold the mask.
#[cycle(flips)]
fn add_flips_of(
    piece: &Piece,
    mask: u64,
    holding: usize,
    start: usize,
    places: &mut Vec<usize>,
) -> Result<(), Memory>
    requires { start + 1 + elements (shape piece.now) ≤ 2 ^ 63 }
    ensures { OnOk result (places.new.items ≡ places.old.items ++ trues_from start (flips_of holding mask (shape piece.now))) }
{
    let held = holds(piece, mask);
    if holding == usize::from(held) {
        put_if(places, held, start)?;
        add_flips_in(piece, mask, start + 1, places)?;
    }
    Ok(())
}

// The same for the literals and the holes of a piece.
#[cycle(flips)]
fn add_flips_in(
    piece: &Piece,
    mask: u64,
    start: usize,
    places: &mut Vec<usize>,
) -> Result<(), Memory>
    requires { start + elements (shape piece.now) ≤ 2 ^ 63 }
    ensures { OnOk result (places.new.items ≡ places.old.items ++ trues_from start (flips_in mask (shape piece.now))) }
{
    let holes = piece.holes.as_slice();
    let middle = start + bits_of(piece.pos);
    if is_admitted(piece.pos, piece.neg, mask) {
        return add_flips(holes, mask, middle + bits_of(piece.neg), places);
    }
    if lacks_one(piece.pos, piece.neg, mask) && !is_held(holes, mask) {
        add_pos(piece.pos, piece.neg, mask, start, places)?;
        add_neg(piece.pos, piece.neg, mask, middle, places)?;
    }
    Ok(())
}
