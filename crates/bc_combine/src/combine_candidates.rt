//! The candidates of two profiles, told inside or outside by an operation on the parities of their regions.
ghost use Rattle.std.specs.Prelude.{◌<◌, length, IfOk, All};
ghost use Rattle.bc_natural.specs.Limits.{AreFew};
ghost use Rattle.bc_classify.specs.Splits.{HasInnerPoint};
ghost use Rattle.bc_combine.specs.Combined.{IsCombined2};

use crate::Op;
use bc_cells::Cell;
use bc_classify::{Marked2, Split2, parities_of};
use bc_discs::Candidate;
use bc_natural::CurveTable;
use bc_num::{List, Memory};
use bc_solid::Profile;
use bc_space::Flat;
use std::alloc::Global;

/// The candidates in two lists, inside and outside, each in order: inside where the operation is true of the mask for `a`
/// and for `b`. `c` is the table of the half-spaces of both, and each candidate is one of the regions of its lines with some
/// of its discs.
///
/// `Memory` where there is no room. The elements are looked at once for each region, and not for each candidate.
pub fn combine2(
    alloc: Global,
    op: Op,
    a: &Profile,
    b: &Profile,
    c: &CurveTable,
    regions: &List<Cell<Flat>>,
    all: &List<Candidate>,
) -> Result<Split2, Memory>
    requires few { AreFew c.now }
    requires regions { All (HasInnerPoint c.now) regions.now }
    requires places { All (λ k. k.region < length regions.now) all.now }
    ensures { IfOk result (IsCombined2 op a.now b.now c.now regions.now all.now) }
{
    let of_first = parities_of(alloc, a, c, regions)?;
    let of_second = parities_of(alloc, b, c, regions)?;
    let mut inside = List::new(alloc);
    let mut outside = List::new(alloc);
    for candidate in all.as_slice() {
        let marked = Marked2 {
            mask: candidate.mask,
            seen: candidate.seen,
        };
        let first = of_first.get(candidate.region).is_odd(candidate.mask);
        let second = of_second.get(candidate.region).is_odd(candidate.mask);
        if op.is_true(first, second) {
            inside.push(marked)?;
        } else {
            outside.push(marked)?;
        }
    }
    Ok(Split2 { inside, outside })
}
