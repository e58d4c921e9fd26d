//! At which of some masks a tree holds. Each leaf is looked at once, for all masks.
ghost use Rattle.std.specs.Prelude.{◌≡◌, ℕ, ◌<◌, length, map, get_or, false, not, ◌&&◌, ◌||◌, IfOk, IfSome};
ghost use Rattle.bc_tree.specs.Shape.{shape, shapes, AllLeaves, EachLeaf};
ghost use Rattle.bc_tree.specs.Leaves.{IsLeaf};
ghost use Rattle.bc_audit.specs.Told.{told_by, leaf_told, holds_by, some_holds, each_holds};

use crate::literal::{Literal, literal_of};
use bc_num::Memory;
use bc_space::Plane3;
use bc_tree::{Leaf, Tree, has_bit};
use std::alloc::Global;

// The same answer at each of the masks.
fn everywhere(alloc: Global, masks: &[u64], holds: bool) -> Result<Vec<bool>, Memory>
    ensures { IfOk result (λ found. found.items ≡ map (λ m. holds) masks.now) }
{
    let mut found = Vec::new(alloc);
    for _mask in masks {
        found.push(holds)?;
    }
    Ok(found)
}

// Which of the masks are on the side of the literal.
fn side_holds(alloc: Global, literal: Literal, masks: &[u64]) -> Result<Vec<bool>, Memory>
    ensures { IfOk result (λ found. found.items ≡ map (λ m. told_by m (Some literal)) masks.now) }
{
    let mut found = Vec::new(alloc);
    for mask in masks {
        found.push(has_bit(*mask, literal.plane) == literal.above)?;
    }
    Ok(found)
}

fn leaf_holds(
    alloc: Global,
    leaf: &Leaf,
    planes: &[Plane3],
    masks: &[u64],
) -> Result<Vec<bool>, Memory>
    requires leaf { IsLeaf leaf.now }
    ensures { IfOk result (λ found. found.items ≡ map (λ m. leaf_told planes.now m leaf.now) masks.now) }
{
    match leaf {
        Leaf::Slab(f) => match literal_of(f, planes) {
            Some(literal) => side_holds(alloc, literal, masks),
            None => everywhere(alloc, masks, false),
        },
        Leaf::Block(_) => everywhere(alloc, masks, true),
        Leaf::Strip(_) | Leaf::Disc(_) | Leaf::Tile(_) => everywhere(alloc, masks, false),
    }
}

// Where one of the two holds.
fn join(mut found: Vec<bool>, more: &[bool]) -> Vec<bool>
    requires { length found.items ≡ length more.now }
    ensures long { length result.items ≡ length found.items }
    ensures each { (k : ℕ) → k < length found.items → get_or result.items k false ≡ (get_or found.items k false || get_or more.now k false) }
{
    for i in 0..found.len() {
        found[i] = found[i] || more[i];
    }
    found
}

// Where both hold.
fn meet(mut found: Vec<bool>, more: &[bool]) -> Vec<bool>
    requires { length found.items ≡ length more.now }
    ensures long { length result.items ≡ length found.items }
    ensures each { (k : ℕ) → k < length found.items → get_or result.items k false ≡ (get_or found.items k false && get_or more.now k false) }
{
    for i in 0..found.len() {
        found[i] = found[i] && more[i];
    }
    found
}

// Where the first holds and the other does not.
fn take_out(mut found: Vec<bool>, more: &[bool]) -> Vec<bool>
    requires { length found.items ≡ length more.now }
    ensures long { length result.items ≡ length found.items }
    ensures each { (k : ℕ) → k < length found.items → get_or result.items k false ≡ (get_or found.items k false && not (get_or more.now k false)) }
{
    for i in 0..found.len() {
        found[i] = found[i] && !more[i];
    }
    found
}

/// Whether the tree holds at the points of each mask, where its blocks have them. Bit i of a mask is set where a point is
/// Above plane i. The cost grows with the leaves times the masks.
#[cycle(mask)]
pub(crate) fn holds_at(
    alloc: Global,
    t: &Tree,
    planes: &[Plane3],
    masks: &[u64],
) -> Result<Vec<bool>, Memory>
    requires leaves { AllLeaves IsLeaf (shape t.now) }
    ensures { IfOk result (λ found. found.items ≡ map (λ m. holds_by (leaf_told planes.now m) (shape t.now)) masks.now) }
{
    match t {
        Tree::Leaf(leaf) => leaf_holds(alloc, leaf, planes, masks),
        Tree::Union(kids) => some_holds_at(alloc, kids.as_slice(), planes, masks),
        Tree::Meet(kids) => each_holds_at(alloc, kids.as_slice(), planes, masks),
        Tree::Cut(first, kids) => {
            let found = holds_at(alloc, first.get(), planes, masks)?;
            let later = some_holds_at(alloc, kids.as_slice(), planes, masks)?;
            Ok(take_out(found, &later))
        }
    }
}

#[cycle(mask)]
fn some_holds_at(
    alloc: Global,
    kids: &[Tree],
    planes: &[Plane3],
    masks: &[u64],
) -> Result<Vec<bool>, Memory>
    requires leaves { EachLeaf IsLeaf (shapes kids.now) }
    ensures { IfOk result (λ found. found.items ≡ map (λ m. some_holds (leaf_told planes.now m) (shapes kids.now)) masks.now) }
{
    let mut found = everywhere(alloc, masks, false)?;
    for kid in kids {
        let more = holds_at(alloc, kid, planes, masks)?;
        found = join(found, &more);
    }
    Ok(found)
}

#[cycle(mask)]
fn each_holds_at(
    alloc: Global,
    kids: &[Tree],
    planes: &[Plane3],
    masks: &[u64],
) -> Result<Vec<bool>, Memory>
    requires leaves { EachLeaf IsLeaf (shapes kids.now) }
    ensures { IfOk result (λ found. found.items ≡ map (λ m. each_holds (leaf_told planes.now m) (shapes kids.now)) masks.now) }
{
    let mut found = everywhere(alloc, masks, true)?;
    for kid in kids {
        let more = holds_at(alloc, kid, planes, masks)?;
        found = meet(found, &more);
    }
    Ok(found)
}
