//! Masks of candidates in two lists, inside and outside, each mask with a point if one was seen. `classify_candidates`
//! makes the lists for contours, and `specs/Splits` says what they are.

use bc_num::{List, P2};

/// The mask of a candidate: bit i stands for half-space i, the lines first and then the discs.
#[derive(Clone, Copy, Debug)]
pub struct Marked2 {
    pub mask: u64,
    /// A point with this mask in lowest terms, or `None` where none was seen.
    pub seen: Option<P2>,
}

/// The masks inside and outside, each list in the order of the candidates.
#[derive(Debug, Drop)]
pub struct Split2 {
    pub inside: List<Marked2>,
    pub outside: List<Marked2>,
}
