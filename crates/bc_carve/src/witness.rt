//! The masks that show which elements of pieces are needed. An element is a piece, a literal or a hole.
ghost use Rattle.std.specs.Prelude.{◌<◌, length, All, IfOk};
ghost use Rattle.std.specs.List.{AllZip};
ghost use Rattle.bc_carve.specs.Shape.{shapes};
ghost use Rattle.bc_carve.specs.Carving.{AreHeld, NoneHeld};
ghost use Rattle.bc_carve.specs.Cuts.{all_cuts};
ghost use Rattle.bc_carve.specs.Steps.{IsFilled};
ghost use Rattle.bc_carve.specs.Witnesses.{IsShown};

use crate::Piece;
use crate::flips::{add_flips, elements_in};
use bc_num::Memory;
use sqlite_items::Items;
use std::alloc::Global;

/// A mask that comes out wrong without an element.
#[derive(Clone, Copy)]
pub enum Witness {
    /// The inside mask at this place is not held then.
    Inside(usize),
    /// The outside mask at this place is held then.
    Outside(usize),
}

// Gives the witness to those of the places that have none.
fn fill(shown: &mut Vec<Option<Witness>>, places: &[usize], witness: Witness)
    requires { All (λ place. place < length shown.old.items) places.now }
    ensures { IsFilled places.now witness shown.old.items shown.new.items }
{
    for place in places {
        if shown[*place].is_none() {
            shown[*place] = Some(witness);
        }
    }
}

/// For each element of the pieces a mask that comes out wrong without it, if there is one: an inside mask that is not held
/// then, or an outside mask that is. The elements are in this order: a piece, its positive literals by their bits, its negative
/// literals, the elements of its holes, and then those of the next piece. `Memory` where there is no room.
pub fn witnesses(
    alloc: Global,
    inside: &[u64],
    outside: &[u64],
    pieces: &[Piece],
) -> Result<Items<Option<Witness>>, Memory>
    requires held { AreHeld inside.now (shapes pieces.now) }
    requires free { NoneHeld outside.now (shapes pieces.now) }
    ensures { IfOk result (AllZip (IsShown inside.now outside.now) (all_cuts (shapes pieces.now))) }
{
    let mut shown = vec![in alloc; None; elements_in(pieces)]?;
    let mut places = Vec::new(alloc);
    for (place, mask) in inside.iter().enumerate() {
        places.clear();
        add_flips(pieces, *mask, 0, &mut places)?;
        fill(&mut shown, &places, Witness::Inside(place));
    }
    for (place, mask) in outside.iter().enumerate() {
        places.clear();
        add_flips(pieces, *mask, 0, &mut places)?;
        fill(&mut shown, &places, Witness::Outside(place));
    }
    Ok(Items::from_vec(shown))
}
