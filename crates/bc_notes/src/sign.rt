//! The two words of a product, one for each sign of its literals: the bits of a sign, and the product without one
//! literal of that sign. `specs/Products` says what a product without a literal is.
ghost use Rattle.std.specs.Prelude.{◌≡◌, ◌<◌};
ghost use Rattle.bc_notes.specs.Products.{without_literal};
ghost use Rattle.bc_notes.specs.Bests.{literal_of, word_of};

use bc_cover::take_out;
use bc_tree::Product;

/// Which of a term's two words a literal is of.
#[derive(Clone, Copy)]
pub enum Sign {
    Positive,
    Negative,
}

impl Sign {
    /// The bits of the product's literals of this sign.
    pub fn word(self, p: Product) -> u64
        ensures { result ≡ word_of self p }
    {
        match self {
            Sign::Positive => p.pos,
            Sign::Negative => p.neg,
        }
    }

    /// The product without its literal of this sign at half-space `i`.
    pub fn without(self, p: Product, i: u32) -> Product
        requires { i < 64 }
        ensures { result ≡ without_literal p (literal_of self i) }
    {
        match self {
            Sign::Positive => Product {
                pos: take_out(p.pos, i),
                neg: p.neg,
            },
            Sign::Negative => Product {
                pos: p.pos,
                neg: take_out(p.neg, i),
            },
        }
    }
}
