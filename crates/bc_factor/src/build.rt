//! The factored tree, level by level.
ghost use Rattle.std.specs.Prelude.{◌≡◌, ◌≤◌, ◌<◌, ◌+◌, ◌^◌, ◌++◌, ◌∷◌, [], All, length, map, IfOk, OnOk};
ghost use Rattle.bc_tree.specs.Shape.{shape, shapes_of, meet, cut, depth as nesting};
ghost use Rattle.bc_tree.specs.Cuts.{picked, product_shape, cover_shape};
ghost use Rattle.bc_tree.specs.Spells.{IsAllowed};
ghost use Rattle.bc_factor.specs.Literals.{the_literal};
ghost use Rattle.bc_factor.specs.Shared.{common, stripped};
ghost use Rattle.bc_factor.specs.Factored.{group, trees, factored_shape};
ghost use Rattle.bc_factor.specs.Counts.{leaf_count, Share};
ghost use Rattle.bc_factor.specs.Meanings.{HoldAlike, AreOfOneKind};

use crate::shared::{common_of, most_shared_of};
use crate::split::{products_of, split, stripped_of};
use bc_cover::Term;
use bc_num::{List, Memory};
use bc_tree::{Leaf, Product, Tree, add_literals, product_tree};
use sqlite_items::{Boxed, Items};
use std::alloc::Global;

/// How many groups are nested in one another at most, so that no more than 63 operators are.
const MOST_LEVELS: u32 = 20;

/// The tree of some terms over literals in which a literal that several terms share is written once. Bit i of a term stands for
/// literal i, and each bit has its literal.
///
/// It holds where the tree of `tree_of` holds, and has no more leaves: fewer where some literal stands in two terms. At most 63
/// operators are nested in it. Where block and literals are within their ranges, and all of the plane or all of space, it is a
/// tree that the grammar of CSG text allows.
pub fn factor(
    alloc: Global,
    block: Leaf,
    literals: &[Leaf],
    terms: &List<Term>,
) -> Result<Tree, Memory>
    requires below { All (λ t. (t.pos < 2 ^ length literals.now) × (t.neg < 2 ^ length literals.now)) terms.now }
    ensures shape { IfOk result (λ t. shape t ≡ factored_shape block literals.now terms.now) }
    ensures meaning { IfOk result (λ t. HoldAlike (shape t) (cover_shape block literals.now terms.now)) }
    ensures leaves { IfOk result (λ t. leaf_count (shape t) ≤ leaf_count (cover_shape block literals.now terms.now)) }
    ensures fewer { IfOk result (λ t. Share terms.now → leaf_count (shape t) < leaf_count (cover_shape block literals.now terms.now)) }
    ensures nested { IfOk result (λ t. nesting (shape t) ≤ 63) }
    ensures allowed { IfOk result (λ t. AreOfOneKind block literals.now → IsAllowed (shape t)) }
{
    let products = products_of(alloc, terms.as_slice())?;
    Ok(Tree::Union(trees_of(alloc, block, literals, products, MOST_LEVELS)?))
}

// The trees of the products, with groups at most so many levels deep.
#[cycle(levels)]
fn trees_of(
    alloc: Global,
    block: Leaf,
    literals: &[Leaf],
    products: Vec<Product>,
    levels: u32,
) -> Result<Items<Tree>, Memory>
    ensures { IfOk result (λ ts. map shape ts ≡ trees block literals.now levels products.items) }
{
    if levels == 0 {
        let mut made = Items::new(alloc);
        add_plain(alloc, &mut made, block, literals, &products)?;
        return Ok(made);
    }
    grouped_trees(alloc, block, literals, products, levels - 1)
}

// The same where a first level is left, and so many below it.
#[cycle(levels)]
fn grouped_trees(
    alloc: Global,
    block: Leaf,
    literals: &[Leaf],
    products: Vec<Product>,
    levels: u32,
) -> Result<Items<Tree>, Memory>
    ensures { IfOk result (λ ts. map shape ts ≡ trees block literals.now (levels + 1) products.items) }
{
    let mut made = Items::new(alloc);
    let mut rest = products;
    while let Some(literal) = most_shared_of(&rest) {
        let (shared, others) = split(alloc, &rest, literal)?;
        made.push(group_of(alloc, block, literals, &shared, levels)?)?;
        rest = others;
    }
    add_plain(alloc, &mut made, block, literals, &rest)?;
    Ok(made)
}

// What the products have in common once, and what is left of them inside.
#[cycle(levels)]
fn group_of(
    alloc: Global,
    block: Leaf,
    literals: &[Leaf],
    shared: &[Product],
    levels: u32,
) -> Result<Tree, Memory>
    ensures { IfOk result (λ t. shape t ≡ group literals.now (common shared.now)
        (trees block literals.now levels (map (stripped (common shared.now)) shared.now))) }
{
    let common = common_of(shared);
    let left = stripped_of(alloc, shared, common)?;
    let inner = trees_of(alloc, block, literals, left, levels)?;
    cut_round(alloc, literals, common, Tree::Union(inner))
}

// The cut of these literals round a tree.
fn cut_round(alloc: Global, literals: &[Leaf], common: Product, inner: Tree) -> Result<Tree, Memory>
    ensures { IfOk result (λ t. shape t ≡ cut
        (meet (shapes_of (picked common.pos 0 literals.now ++ shape inner ∷ []))) (shapes_of (picked common.neg 0 literals.now))) }
{
    let mut parts = Items::new(alloc);
    add_literals(&mut parts, literals, common.pos)?;
    parts.push(inner)?;
    let mut holes = Items::new(alloc);
    add_literals(&mut holes, literals, common.neg)?;
    Ok(Tree::Cut(Boxed::new(alloc, Tree::Meet(parts))?, holes))
}

// Adds the plain trees of the products.
fn add_plain(
    alloc: Global,
    made: &mut Items<Tree>,
    block: Leaf,
    literals: &[Leaf],
    products: &[Product],
) -> Result<(), Memory>
    ensures { OnOk result (map shape made.new ≡ map shape made.old ++ map (product_shape block literals.now) products.now) }
{
    for product in products {
        made.push(product_tree(alloc, block, literals, *product)?)?;
    }
    Ok(())
}
