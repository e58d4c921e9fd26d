//! Whether one mask of a region is odd, over a table that may have the half-spaces of other contours too.
ghost use Rattle.std.specs.Prelude.{◌≡◌};
ghost use Rattle.bc_natural.specs.Limits.{AreFew};
ghost use Rattle.bc_classify.specs.OddMasks.{is_odd_mask};
ghost use Rattle.bc_classify.specs.Splits.{HasInnerPoint};

use crate::region_parity::RegionParity;
use bc_cells::Cell;
use bc_natural::CurveTable;
use bc_solid::Profile;
use bc_space::Flat;

/// Whether the mask is odd for `s`, the region being one of the lines of `c`: the parity of the edges and chords of `s` at
/// the region's inner point, flipped once for each full circle of `s` whose disc is in the mask, and once for each other arc
/// of `s` whose disc is in the mask and on whose side of the chord the region is. The table may have half-spaces that `s`
/// has not. No memory is taken, and the cost grows with the elements.
pub fn odd_mask2(s: &Profile, c: &CurveTable, region: &Cell<Flat>, mask: u64) -> bool
    requires few { AreFew c.now }
    requires region { HasInnerPoint c.now region.now }
    ensures { result ≡ is_odd_mask s.now c.now region.now.inner mask }
{
    RegionParity::at(s, c, &region.inner).is_odd(mask)
}
