//! A literal of a product: the number of a half-space, and whether the product takes its inside or takes it away.
//! `shared` finds the literal that most products have, and `split` parts the products by it.

/// A half-space with its sign. Half-spaces are counted from 0.
#[derive(Clone, Copy, Debug, PartialEq, Eq)]
pub enum Literal {
    /// The product takes the half-space's inside.
    Positive(usize),
    /// The product takes the half-space away.
    Negative(usize),
}
