//! The three operations on two boundaries, and whether each is true of the parities of both. `combine_candidates` and
//! `combine_cells` ask this of each candidate and of each cell.
ghost use Rattle.std.specs.Prelude.{◌≡◌};
ghost use Rattle.bc_combine.specs.Combined.{is_true_of};

/// What is made of two boundaries.
#[derive(Clone, Copy, Debug, PartialEq, Eq)]
pub enum Op {
    /// What is in the first or in the second.
    Union,
    /// What is in both.
    Intersection,
    /// What is in the first and not in the second.
    Difference,
}

impl Op {
    /// Whether the operation is true of the parities of the first and of the second.
    pub fn is_true(self, first: bool, second: bool) -> bool
        ensures { result ≡ is_true_of self first second }
    {
        match self {
            Op::Union => first || second,
            Op::Intersection => first && second,
            Op::Difference => first && !second,
        }
    }
}
