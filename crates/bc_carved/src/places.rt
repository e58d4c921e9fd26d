//! The numbers of the nodes of a carving's parts, before which notes may stand.
ghost use Rattle.std.specs.Prelude.{◌≡◌, ◌≤◌, ◌<◌, ◌+◌, ◌*◌, ◌^◌, ◌++◌, ◌||◌, nat_lt, nat_eq, length, IfOk, OnOk};
ghost use Rattle.bc_carve.specs.Shape.{shape as outline, shapes as outlines};
ghost use Rattle.bc_carved.specs.Steps.{one_if as the_one_if, are_some, place_if as the_place_if, numbered, AddsInner, AddsPieces};
ghost use Rattle.bc_carved.specs.Laws.{ArePlaces};

use bc_carve::Piece;
use bc_num::Memory;
use std::alloc::Global;

/// The numbers of the nodes of a carving's parts in its tree: of each piece, of its positive and its negative half-spaces, and of
/// its holes with their parts. `None` stands for a half-space that is its whole piece: the node is that of the piece.
pub fn places_of(alloc: Global, pieces: &[Piece]) -> Result<Vec<Option<u128>>, Memory>
    ensures { IfOk result (λ v. ArePlaces (outlines pieces.now) v.items) }
{
    let mut places = Vec::new(alloc);
    match pieces {
        [] => Ok(places),
        [piece] => {
            places.push(Some(0))?;
            let _ = add_inner(&mut places, true, 0, piece)?;
            Ok(places)
        }
        _ => {
            let _ = add_pieces(&mut places, 3, pieces)?;
            Ok(places)
        }
    }
}

fn one_if(test: bool) -> u128
    ensures { result ≡ the_one_if test }
{
    if test { 1 } else { 0 }
}

// Whether something is taken away from a piece.
fn is_cut(negative: u32, holes: &[Piece]) -> bool
    ensures { result ≡ (nat_lt 0 negative || are_some (outlines holes.now)) }
{
    negative > 0 || !holes.is_empty()
}

// Whether a piece has other nodes than one leaf.
fn has_nodes(cuts: bool, common: u128) -> bool
    ensures { result ≡ (cuts || nat_lt 1 common) }
{
    cuts || common > 1
}

fn place_if(own: bool, n: u128) -> Option<u128>
    ensures { result ≡ the_place_if own n }
{
    if own { Some(n) } else { None }
}

// Adds so many places, from `n` on.
fn add_half_spaces(
    places: &mut Vec<Option<u128>>,
    own: bool,
    n: u128,
    count: u32,
) -> Result<(), Memory>
    requires { n < 2 ^ 100 }
    ensures { OnOk result (places.new.items ≡ places.old.items ++ numbered own n count) }
{
    for k in 0..count {
        places.push(place_if(own, n + k as u128))?;
    }
    Ok(())
}

// Adds the places of the parts of a piece with number `n`, and gives the number behind the piece.
#[cycle(places)]
fn add_inner(
    places: &mut Vec<Option<u128>>,
    lone: bool,
    n: u128,
    piece: &Piece,
) -> Result<u128, Memory>
    requires { n ≤ 3 * length places.old.items + 1 }
    ensures added { IfOk result (AddsInner lone n (outline piece.now) places.old.items places.new.items) }
    ensures soon { IfOk result (λ m. m ≤ 3 * length places.new.items + 4) }
{
    let positive = piece.pos.count_ones();
    let negative = piece.neg.count_ones();
    let holes = piece.holes.as_slice();
    let cuts = is_cut(negative, holes);
    let front = one_if(lone);
    let common = front + positive as u128;
    let own = has_nodes(cuts, common);
    let inside = n + one_if(cuts) + one_if(common > 1);
    let behind = inside + common + one_if(common == 0);
    add_half_spaces(places, own, inside + front, positive)?;
    add_half_spaces(places, own, behind, negative)?;
    Ok(add_pieces(places, behind + negative as u128, holes)?)
}

// Adds the places of pieces, the first of which has number `n`, and of their parts, and gives the number behind them.
#[cycle(places)]
fn add_pieces(places: &mut Vec<Option<u128>>, n: u128, pieces: &[Piece]) -> Result<u128, Memory>
    requires { n ≤ 3 * length places.old.items + 4 }
    ensures added { IfOk result (AddsPieces n (outlines pieces.now) places.old.items places.new.items) }
    ensures soon { IfOk result (λ m. m ≤ 3 * length places.new.items + 4) }
{
    let mut next = n;
    for piece in pieces {
        places.push(Some(next))?;
        next = add_inner(places, false, next, piece)?;
    }
    Ok(next)
}
