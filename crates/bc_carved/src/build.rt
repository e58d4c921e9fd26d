//! The tree of a carving, piece by piece.
ghost use Rattle.std.specs.Prelude.{◌≡◌, ◌≤◌, ◌+◌, ◌++◌, [], ◌∷◌, length, map, IfOk, OnOk};
ghost use Rattle.bc_tree.specs.Shape.{shape, leaf, depth as nesting};
ghost use Rattle.bc_tree.specs.Spells.{IsAllowed};
ghost use Rattle.bc_factor.specs.Counts.{leaf_count};
ghost use Rattle.bc_factor.specs.Meanings.{AreOfOneKind};
ghost use Rattle.bc_carve.specs.Shape.{shape as outline, shapes as outlines, literals_in, depths as levels, EachProduct};
ghost use Rattle.bc_carve.specs.Carving.{IsProduct};
ghost use Rattle.bc_carved.specs.Carved.{meet_of, cut_of, bounded, piece_shape, piece_shapes, carved_shape};
ghost use Rattle.bc_carved.specs.Counts.{all_blocks};
ghost use Rattle.bc_carved.specs.Meanings.{MeansCarving};

use bc_carve::Piece;
use bc_num::Memory;
use bc_tree::{Leaf, Tree, add_literals};
use sqlite_items::{Boxed, Items};
use std::alloc::Global;

/// The tree of a carving over half-spaces, which are given by their leaves. Bit i of a piece stands for leaf i, and each bit
/// has its leaf.
///
/// Inside the block it holds exactly where some piece holds the point's mask, outside it nowhere. It has a leaf for each
/// literal, beside the block. At most three operators more are nested in it than there are levels of pieces. Where block and
/// leaves are within their ranges, and all of the plane or all of space, it is a tree that the grammar of CSG text allows.
pub fn carved_tree(
    alloc: Global,
    block: Leaf,
    leaves: &[Leaf],
    pieces: &[Piece],
) -> Result<Tree, Memory>
    requires { EachProduct (IsProduct (length leaves.now)) (outlines pieces.now) }
    ensures shape { IfOk result (λ t. shape t ≡ carved_shape block leaves.now (outlines pieces.now)) }
    ensures meaning { IfOk result (λ t. MeansCarving block leaves.now (outlines pieces.now) (shape t)) }
    ensures leaves { IfOk result (λ t. leaf_count (shape t) ≡ literals_in (outlines pieces.now) + all_blocks (outlines pieces.now)) }
    ensures nested { IfOk result (λ t. nesting (shape t) ≤ levels (outlines pieces.now) + 3) }
    ensures allowed { IfOk result (λ t. AreOfOneKind block leaves.now → levels (outlines pieces.now) ≤ 61 → IsAllowed (shape t)) }
{
    Ok(tree_of(alloc, block, leaves, pieces)?)
}

// The tree of no piece, of one, or of several.
fn tree_of(alloc: Global, block: Leaf, leaves: &[Leaf], pieces: &[Piece]) -> Result<Tree, Memory>
    ensures { IfOk result (λ t. shape t ≡ carved_shape block leaves.now (outlines pieces.now)) }
{
    match pieces {
        [] => Ok(Tree::Union(Items::new(alloc))),
        [piece] => {
            let mut round = Items::new(alloc);
            round.push(Tree::Leaf(block))?;
            Ok(piece_tree(alloc, block, leaves, round, piece)?)
        }
        _ => {
            let mut parts = Items::new(alloc);
            add_pieces(alloc, &mut parts, block, leaves, pieces)?;
            Ok(within_block(alloc, block, parts)?)
        }
    }
}

// What the block and some of the trees have in common.
fn within_block(alloc: Global, block: Leaf, parts: Items<Tree>) -> Result<Tree, Memory>
    ensures { IfOk result (λ t. shape t ≡ bounded block (map shape parts)) }
{
    let mut both = Items::new(alloc);
    both.push(Tree::Leaf(block))?;
    both.push(Tree::Union(parts))?;
    Ok(Tree::Meet(both))
}

// The tree of a piece. What stands in `round` stands before its positive half-spaces.
#[cycle(pieces)]
fn piece_tree(
    alloc: Global,
    block: Leaf,
    leaves: &[Leaf],
    round: Items<Tree>,
    piece: &Piece,
) -> Result<Tree, Memory>
    ensures { IfOk result (λ t. shape t ≡ piece_shape block leaves.now (map shape round) (outline piece.now)) }
{
    let mut parts = round;
    add_literals(&mut parts, leaves, piece.pos)?;
    let mut taken = Items::new(alloc);
    add_literals(&mut taken, leaves, piece.neg)?;
    add_pieces(alloc, &mut taken, block, leaves, piece.holes.as_slice())?;
    less(alloc, common(block, parts), taken)
}

// Adds the trees of the pieces.
#[cycle(pieces)]
fn add_pieces(
    alloc: Global,
    made: &mut Items<Tree>,
    block: Leaf,
    leaves: &[Leaf],
    pieces: &[Piece],
) -> Result<(), Memory>
    ensures { OnOk result (map shape made.new ≡ map shape made.old ++ piece_shapes block leaves.now (outlines pieces.now)) }
{
    for piece in pieces {
        made.push(piece_tree(alloc, block, leaves, Items::new(alloc), piece)?)?;
    }
    Ok(())
}

// What the trees have in common: one alone stands as it is, and where there is none, the block does.
fn common(block: Leaf, parts: Items<Tree>) -> Tree
    ensures { shape result ≡ meet_of block (map shape parts) }
{
    let mut parts = parts;
    if parts.len() > 1 {
        return Tree::Meet(parts);
    }
    match parts.pop() {
        Some(part) => part,
        None => Tree::Leaf(block),
    }
}

// The first tree less the others, if there are some.
fn less(alloc: Global, first: Tree, taken: Items<Tree>) -> Result<Tree, Memory>
    ensures { IfOk result (λ t. shape t ≡ cut_of (shape first) (map shape taken)) }
{
    if taken.is_empty() {
        return Ok(first);
    }
    Ok(Tree::Cut(Boxed::new(alloc, first)?, taken))
}
