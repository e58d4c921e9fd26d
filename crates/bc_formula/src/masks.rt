//! Which masks a division of contours has.

/// Which of the masks of a boundary's parts a division has.
#[derive(Clone, Copy, Debug, PartialEq, Eq)]
pub enum Masks {
    /// Those of all candidates.
    Whole,
    /// Those of the lean candidates alone, of which a text and its notes are made.
    Lean,
}
