//! The carving of a division: its pieces by `bc_carve`, and the tree of these by `bc_carved`.
ghost use Rattle.std.specs.Prelude.{◌≡◌, length, IfOk};
ghost use Rattle.bc_formula.specs.Divisions.{AreMasks};
ghost use Rattle.bc_formula.specs.Shown.{masks_of};
ghost use Rattle.bc_pieces.specs.Carved.{ArePiecesOf, IsCarvedFrom};

use bc_carve::{Piece, carve};
use bc_carved::carved_tree;
use bc_formula::{Division, Formula, terms_of};
use bc_notes::Shown;
use bc_num::Memory;
use sqlite_items::Items;
use std::alloc::Global;

fn masks(alloc: Global, parts: &[Shown]) -> Result<Vec<u64>, Memory>
    ensures { IfOk result (λ v. v.items ≡ masks_of parts.now) }
{
    let mut masks = Vec::new(alloc);
    for part in parts {
        masks.push(part.mask)?;
    }
    Ok(masks)
}

/// Pieces over the leaves of a division that hold each mask inside and none outside. None of their literals, holes and
/// pieces is idle, and they have no more literals than a plain cover of the same masks. `Memory` where there is no room.
pub fn pieces_of(alloc: Global, division: &Division) -> Result<Items<Piece>, Memory>
    requires { AreMasks division.now.leaves (masks_of division.now.inside.items) (masks_of division.now.outside.items) }
    ensures { IfOk result (ArePiecesOf (masks_of division.now.inside.items) (masks_of division.now.outside.items) (length division.now.leaves)) }
{
    let n = division.leaves.len() as u32;
    let inside = masks(alloc, &division.inside)?;
    let outside = masks(alloc, &division.outside)?;
    let terms = terms_of(alloc, division)?;
    carve(alloc, &inside, &outside, n, &terms)
}

/// The tree of the pieces of a division, and the head of its text. `Memory` where there is no room.
pub fn carved_formula_of(alloc: Global, division: &Division) -> Result<Formula, Memory>
    requires { AreMasks division.now.leaves (masks_of division.now.inside.items) (masks_of division.now.outside.items) }
    ensures { IfOk result (IsCarvedFrom division.now) }
{
    let pieces = pieces_of(alloc, division)?;
    let leaves = division.leaves.as_slice();
    Ok(Formula {
        tree: carved_tree(alloc, division.block, leaves, pieces.as_slice())?,
        head: division.head,
        notes: Vec::new(alloc),
    })
}
