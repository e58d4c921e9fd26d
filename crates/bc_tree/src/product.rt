//! A product of half-spaces by two masks, which is what a term says without the places of masks that it keeps. `build`
//! makes its tree.
ghost use Rattle.std.specs.Prelude.{◌≡◌};
ghost use Rattle.bc_tree.specs.Cuts.{product_of};

use bc_cover::Term;

/// A product of half-spaces as two masks, bit i for half-space i: those whose inside it takes, and those that it takes away.
#[derive(Clone, Copy, Debug, PartialEq, Eq)]
pub struct Product {
    pub pos: u64,
    pub neg: u64,
}

impl Product {
    /// The product that the term stands for.
    pub fn of(term: &Term) -> Product
        ensures { result ≡ product_of term.now }
    {
        Product {
            pos: term.pos,
            neg: term.neg,
        }
    }
}
