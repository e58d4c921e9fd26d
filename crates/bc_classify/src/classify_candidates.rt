//! The candidates of contours, told inside or outside by the parities of their regions.
ghost use Rattle.std.specs.Prelude.{◌<◌, length, IfOk, All};
ghost use Rattle.std.specs.List.{AllZip};
ghost use Rattle.bc_natural.specs.Curves.{AreCurves};
ghost use Rattle.bc_natural.specs.Limits.{AreFew};
ghost use Rattle.bc_classify.specs.RegionParities.{IsParityAt};
ghost use Rattle.bc_classify.specs.Splits.{HasInnerPoint, IsSplit};

use crate::region_parity::RegionParity;
use crate::{Marked2, Split2};
use bc_cells::Cell;
use bc_discs::Candidate;
use bc_natural::CurveTable;
use bc_num::{List, Memory};
use bc_solid::Profile;
use bc_space::Flat;
use std::alloc::Global;

/// The candidates in two lists, inside and outside, each in order. `c` is the table of the half-spaces of `s`, and each
/// candidate is one of the regions with some of the table's discs. No arc's crossing is computed: the parity of the chords
/// is taken at the region's inner point, and flipped once for each full circle of the set, and once for each other arc of
/// the set's discs on whose side of the chord the region is.
pub fn classify2(
    alloc: Global,
    s: &Profile,
    c: &CurveTable,
    regions: &List<Cell<Flat>>,
    all: &List<Candidate>,
) -> Result<Split2, Memory>
    requires table { AreCurves s.now c.now }
    requires few { AreFew c.now }
    requires regions { All (HasInnerPoint c.now) regions.now }
    requires places { All (λ k. k.region < length regions.now) all.now }
    ensures { IfOk result (IsSplit s.now c.now regions.now all.now) }
{
    let parities = parities_of(alloc, s, c, regions)?;
    let mut inside = List::new(alloc);
    let mut outside = List::new(alloc);
    for candidate in all.as_slice() {
        let marked = Marked2 {
            mask: candidate.mask,
            seen: candidate.seen,
        };
        if parities.get(candidate.region).is_odd(candidate.mask) {
            inside.push(marked)?;
        } else {
            outside.push(marked)?;
        }
    }
    Ok(Split2 { inside, outside })
}

/// The parities of `s` at the inner points of the regions, in order. The table `c` may have half-spaces that `s` has not.
///
/// `Memory` where there is no room. The time grows as the regions times the elements.
pub fn parities_of(
    alloc: Global,
    s: &Profile,
    c: &CurveTable,
    regions: &List<Cell<Flat>>,
) -> Result<List<RegionParity>, Memory>
    requires few { AreFew c.now }
    requires regions { All (HasInnerPoint c.now) regions.now }
    ensures { IfOk result (AllZip (λ region. IsParityAt s.now c.now region.inner) regions.now) }
{
    let mut parities = List::new(alloc);
    for region in regions.as_slice() {
        parities.push(RegionParity::at(s, c, &region.inner))?;
    }
    Ok(parities)
}
