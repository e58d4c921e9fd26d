//! The literal that stands in most products, and what products have in common.
ghost use Rattle.std.specs.Prelude.{◌≡◌};
ghost use Rattle.bc_factor.specs.Literals.{the_literal, the_choice};
ghost use Rattle.bc_factor.specs.Shared.{stands, count, most_shared, common, common_with};

use crate::literal::Literal;
use bc_tree::{Product, has_bit};

/// Whether the literal stands in the product.
pub fn stands_in(literal: Literal, product: &Product) -> bool
    ensures { result ≡ stands (the_literal literal) product.now }
{
    match literal {
        Literal::Positive(i) => has_bit(product.pos, i),
        Literal::Negative(i) => has_bit(product.neg, i),
    }
}

fn count_of(literal: Literal, products: &[Product]) -> usize
    ensures { result ≡ count (the_literal literal) products.now }
{
    products
        .iter()
        .filter(|product| stands_in(literal, product))
        .count()
}

/// The literal that stands in most of the products, where some literal stands in two. Among equals it is the one with the
/// least half-space, and then the positive one.
pub fn most_shared_of(products: &[Product]) -> Option<Literal>
    ensures { the_choice result ≡ most_shared products.now }
{
    let mut best = None;
    let mut most = 1;
    for i in 0..64 {
        let positive = count_of(Literal::Positive(i), products);
        if positive > most {
            best = Some(Literal::Positive(i));
            most = positive;
        }
        let negative = count_of(Literal::Negative(i), products);
        if negative > most {
            best = Some(Literal::Negative(i));
            most = negative;
        }
    }
    best
}

/// The literals that all products have in common.
pub fn common_of(products: &[Product]) -> Product
    ensures { result ≡ common products.now }
{
    let Some((first, rest)) = products.split_first() else {
        return Product { pos: 0, neg: 0 };
    };
    common_from(*first, rest)
}

fn common_from(first: Product, rest: &[Product]) -> Product
    ensures { result ≡ common_with first rest.now }
{
    let mut common = first;
    for product in rest {
        common = Product {
            pos: common.pos & product.pos,
            neg: common.neg & product.neg,
        };
    }
    common
}
