//! Whether the blocks of a tree are the box.
ghost use Rattle.std.specs.Prelude.{◌≡◌};
ghost use Rattle.bc_tree.specs.Shape.{shape, shapes};
ghost use Rattle.bc_audit.specs.Blocks.{every, all_pass, is_same_box, is_of_box as of_box};

use bc_num::Box3;
use bc_tree::{Leaf, Tree};

fn is_same(b: &Box3, c: &Box3) -> bool
    ensures { result ≡ is_same_box b.now c.now }
{
    b == c
}

fn is_of_box(leaf: &Leaf, block: &Box3) -> bool
    ensures { result ≡ of_box block.now leaf.now }
{
    match leaf {
        Leaf::Block(b) => is_same(b, block),
        Leaf::Slab(_) | Leaf::Strip(_) | Leaf::Disc(_) | Leaf::Tile(_) => true,
    }
}

/// Whether each block of the tree is this box. No memory is taken.
#[cycle(blocks)]
pub(crate) fn has_one_box(t: &Tree, block: &Box3) -> bool
    ensures { result ≡ every (of_box block.now) (shape t.now) }
{
    match t {
        Tree::Leaf(leaf) => is_of_box(leaf, block),
        Tree::Union(kids) => all_have_one_box(kids.as_slice(), block),
        Tree::Meet(kids) => all_have_one_box(kids.as_slice(), block),
        Tree::Cut(first, kids) => {
            has_one_box(first.get(), block) && all_have_one_box(kids.as_slice(), block)
        }
    }
}

#[cycle(blocks)]
fn all_have_one_box(kids: &[Tree], block: &Box3) -> bool
    ensures { result ≡ all_pass (of_box block.now) (shapes kids.now) }
{
    for kid in kids {
        if !has_one_box(kid, block) {
            return false;
        }
    }
    true
}
