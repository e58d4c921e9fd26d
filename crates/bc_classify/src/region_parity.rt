//! The parity of all masks of a region at once.
ghost use Rattle.std.specs.Prelude.{◌≡◌, ℕ};
ghost use Rattle.bc_num.specs.Sizes.{IsSmallPoint};
ghost use Rattle.bc_natural.specs.Limits.{AreFew};
ghost use Rattle.bc_classify.specs.RegionParities.{told, is_odd_overlap, IsParityAt};

use crate::flips::flips_at;
use bc_natural::CurveTable;
use bc_num::P2;
use bc_parity::straight_odd2;
use bc_solid::Profile;

/// What the candidates of a region share.
#[derive(Clone, Copy, Debug)]
pub struct RegionParity {
    /// Whether the ray from the region crosses the edges and chords an odd number of times.
    pub straight: bool,
    /// The bits of the discs that flip the parity: full circles, and arcs on whose side of the chord the region is.
    pub flips: u64,
}

impl RegionParity {
    /// The parities of the masks at `q`.
    pub(crate) fn at(s: &Profile, table: &CurveTable, q: &P2) -> RegionParity
        requires few { AreFew table.now }
        requires small { IsSmallPoint q.now }
        ensures { IsParityAt s.now table.now q.now result }
    {
        RegionParity {
            straight: straight_odd2(s, q),
            flips: flips_at(s, table, q),
        }
    }

    /// Whether the mask is odd. No memory is taken.
    pub fn is_odd(&self, mask: u64) -> bool
        ensures { result ≡ told self.now mask }
    {
        self.straight != overlaps_oddly(mask, self.flips)
    }
}

// Whether an odd number of bits is set in both.
fn overlaps_oddly(mask: u64, word: u64) -> bool
    ensures { result ≡ is_odd_overlap mask word }
{
    (mask & word).count_ones() % 2 == 1
}
