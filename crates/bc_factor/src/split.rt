//! Lists of products made of others.
ghost use Rattle.std.specs.Prelude.{◌≡◌, map, IfOk};
ghost use Rattle.bc_tree.specs.Cuts.{product_of};
ghost use Rattle.bc_factor.specs.Literals.{the_literal};
ghost use Rattle.bc_factor.specs.Shared.{stripped, with_literal, other_than};

use crate::literal::Literal;
use crate::shared::stands_in;
use bc_cover::Term;
use bc_num::Memory;
use bc_tree::Product;
use std::alloc::Global;

/// The products in which the literal stands, and the others.
pub fn split(
    alloc: Global,
    products: &[Product],
    literal: Literal,
) -> Result<(Vec<Product>, Vec<Product>), Memory>
    ensures shared { IfOk result (λ r. r.0.items ≡ with_literal (the_literal literal) products.now) }
    ensures others { IfOk result (λ r. r.1.items ≡ other_than (the_literal literal) products.now) }
{
    let mut shared = Vec::new(alloc);
    let mut others = Vec::new(alloc);
    for product in products {
        if stands_in(literal, product) {
            shared.push(*product)?;
        } else {
            others.push(*product)?;
        }
    }
    Ok((shared, others))
}

/// The products without these literals.
pub fn stripped_of(
    alloc: Global,
    products: &[Product],
    common: Product,
) -> Result<Vec<Product>, Memory>
    ensures { IfOk result (λ v. v.items ≡ map (stripped common) products.now) }
{
    let mut left = Vec::new(alloc);
    for product in products {
        left.push(Product {
            pos: product.pos ^ (product.pos & common.pos),
            neg: product.neg ^ (product.neg & common.neg),
        })?;
    }
    Ok(left)
}

/// The products that the terms stand for.
pub fn products_of(alloc: Global, terms: &[Term]) -> Result<Vec<Product>, Memory>
    ensures { IfOk result (λ v. v.items ≡ map product_of terms.now) }
{
    let mut products = Vec::new(alloc);
    for term in terms {
        products.push(Product::of(term))?;
    }
    Ok(products)
}
