//! Points of terms: each of a mask that one term holds and no other.
ghost use Rattle.std.specs.Prelude.{◌≡◌, ◌<◌, ℕ, List, Some, IfOk, IfSome, length};
ghost use Rattle.bc_tree.specs.declared.product.Product.{Product};
ghost use Rattle.bc_notes.specs.Products.{products_of};
ghost use Rattle.bc_notes.specs.Chosen.{IsAlone};
ghost use Rattle.bc_notes.specs.Bests.{IsSpotOf, AllAt, AreSteps, AreOwns, IsOwner, IsOwnerShown, AreOwners};

use crate::Shown;
use crate::best::Best;
use crate::bests::improve_at;
use bc_cover::{Term, is_admitted};
use bc_num::Memory;
use bc_text::Spot;
use bc_tree::Product;
use std::alloc::Global;

// The products that the terms stand for: two words each, so that little memory is read in a walk over all of them.
fn product_list(alloc: Global, terms: &[Term]) -> Result<Vec<Product>, Memory>
    ensures { IfOk result (λ v. v.items ≡ products_of terms.now) }
{
    let mut products = Vec::new(alloc);
    for term in terms {
        products.push(Product::of(term))?;
    }
    Ok(products)
}

// The place of the only product that holds the mask. The walk ends at the second one that does.
fn owner_of(products: &[Product], mask: u64) -> Option<usize>
    ensures { IsOwner products.now mask result }
{
    let mut owner = None;
    for i in 0..products.len() {
        let p = products[i];
        if is_admitted(p.pos, p.neg, mask) {
            if owner.is_some() {
                return None;
            }
            owner = Some(i);
        }
    }
    owner
}

// The same, where the mask has a point.
fn owner_shown(m: &Shown, products: &[Product]) -> Option<usize>
    ensures { IsOwnerShown products.now m.now result }
{
    if m.spot.is_some() {
        owner_of(products, m.mask)
    } else {
        None
    }
}

// The owner of each mask.
fn owners_of(
    alloc: Global,
    inside: &[Shown],
    products: &[Product],
) -> Result<Vec<Option<usize>>, Memory>
    ensures { IfOk result (λ v. AreOwners products.now inside.now v.items) }
{
    let mut owners = Vec::new(alloc);
    for m in inside {
        owners.push(owner_shown(m, products))?;
    }
    Ok(owners)
}

// The point of the mask at the place that the cover names, where the term at place `i` owns the mask.
fn named_own(inside: &[Shown], owners: &[Option<usize>], named: usize, i: usize) -> Option<Spot>
    requires { length owners.now ≡ length inside.now }
    ensures { (products : List Product) → AreOwners products inside.now owners.now → IsSpotOf (IsAlone products i) inside.now result }
{
    if named >= inside.len() {
        return None;
    }
    match owners[named] {
        Some(owner) => { if owner == i { inside[named].spot } else { None } }
        None => None,
    }
}

// The points of the masks that the cover names for the terms.
fn named_owns(
    alloc: Global,
    inside: &[Shown],
    owners: &[Option<usize>],
    terms: &[Term],
) -> Result<Vec<Best>, Memory>
    requires { length owners.now ≡ length inside.now }
    ensures len { IfOk result (λ v. length v.items ≡ length terms.now) }
    ensures each { (products : List Product) → AreOwners products inside.now owners.now → IfOk result (λ v. AllAt (λ i spot. IsSpotOf (IsAlone products i) inside.now spot) v.items) }
{
    let mut bests = Vec::new(alloc);
    for i in 0..terms.len() {
        let named = named_own(inside, owners, terms[i].own, i);
        bests.push(Best::new(named, inside.len()))?;
    }
    Ok(bests)
}

// Looks at the point of a mask for the term that owns it.
fn improve_owner(bests: &mut Vec<Best>, owner: Option<usize>, spot: &Option<Spot>)
    requires { IfSome owner (λ i. i < length bests.old.items) }
    ensures len { length bests.new.items ≡ length bests.old.items }
    ensures each { AreSteps (λ i. owner ≡ Some i) spot.now bests.old.items bests.new.items }
{
    match owner {
        Some(i) => improve_at(bests, i, spot),
        None => {}
    }
}

/// For each term a point of a mask that it holds and no other term, where one of the masks is such and has a point: that of
/// the mask that the cover names; but of at most 1,024 masks one with the least denominator. Only where the named mask has no
/// point is a longer list looked through. `Memory` where there is no room.
pub fn own_points(alloc: Global, inside: &[Shown], terms: &[Term]) -> Result<Vec<Best>, Memory>
    ensures len { IfOk result (λ v. length v.items ≡ length terms.now) }
    ensures each { IfOk result (λ v. AreOwns (products_of terms.now) inside.now v.items) }
{
    let products = product_list(alloc, terms)?;
    let owners = owners_of(alloc, inside, &products)?;
    let mut bests = named_owns(alloc, inside, &owners, terms)?;
    for k in 0..inside.len() {
        improve_owner(&mut bests, owners[k], &inside[k].spot);
    }
    Ok(bests)
}
