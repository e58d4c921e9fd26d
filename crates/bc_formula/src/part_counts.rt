//! How many parts contours divide their box into. The candidates are counted region by region, so that no list has them all.
ghost use Rattle.std.specs.Prelude.{◌≡◌, ◌≤◌, length, filter, IfOk, IfErr, All};
ghost use Rattle.std.specs.Prelude.{List as Listed};
ghost use Rattle.bc_num.specs.declared.box2.Box2.{Box2 as ABox};
ghost use Rattle.bc_num.specs.Sizes.{IsSmallPoint};
ghost use Rattle.bc_space.specs.Lines.{line_side, IsSizedLine};
ghost use Rattle.bc_space.specs.Discs.{IsSizedDisc};
ghost use Rattle.bc_space.specs.Flat.{IsSizedBox2, met2, walls2};
ghost use Rattle.bc_cells.specs.Cells.{AreCells};
ghost use Rattle.bc_solid.specs.Boxes.{IsBoxOf};
ghost use Rattle.bc_natural.specs.Curves.{AreCurves};
ghost use Rattle.bc_natural.specs.Limits.{AreSized, AreFew, IsLimitFault};
ghost use Rattle.bc_discs.specs.declared.candidate.Candidate.{Candidate as ACandidate};
ghost use Rattle.bc_discs.specs.Candidates.{AreCandidates};
ghost use Rattle.bc_classify.specs.OddMasks.{is_odd_candidate};
ghost use Rattle.bc_classify.specs.RegionParities.{told};
ghost use Rattle.bc_classify.specs.Splits.{HasInnerPoint};
ghost use Rattle.bc_formula.specs.ContourGeometry.{contours};
ghost use Rattle.bc_formula.specs.Tallies.{AreParted};

use bc_cells::{Cell, cells};
use bc_classify::laws::odd_mask_law;
use bc_classify::{RegionParity, parities_of};
use bc_discs::{Candidate, candidates_of_region};
use bc_natural::{CurveTable, NatFault, box2, curves};
use bc_num::{Box2, Disc2, List, Memory};
use bc_parity::laws::straight_cell_law;
use bc_solid::Profile;
use bc_space::{Flat, Line2};
use std::alloc::Global;

/// How many parts a boundary divides its box into, and how many of them are inside.
#[derive(Clone, Copy, Debug, PartialEq, Eq)]
pub struct PartCounts {
    pub parts: u128,
    pub inside: u128,
}

// How many candidates of a region are odd.
fn odd_among(parity: &RegionParity, found: &[Candidate]) -> usize
    ensures { result ≡ length (filter (λ c. told parity.now c.mask) found.now) }
{
    found.iter().filter(|c| parity.is_odd(c.mask)).count()
}

// How many candidates the regions have, and how many of them are odd.
fn count_regions(
    alloc: Global,
    profile: &Profile,
    table: &CurveTable,
    tile: &Box2,
    lines: &[Line2],
    regions: &List<Cell<Flat>>,
    discs: &[Disc2],
) -> Result<PartCounts, Memory>
    requires few { AreFew table.now }
    requires inner { All (HasInnerPoint table.now) regions.now }
    requires few_lines { length lines.now ≤ 40 }
    requires few_discs { length discs.now ≤ 10 }
    requires box_sized { IsSizedBox2 tile.now }
    requires lines_sized { All IsSizedLine lines.now }
    requires discs_sized { All IsSizedDisc discs.now }
    requires cells { AreCells IsSmallPoint line_side met2 2 (walls2 tile.now) lines.now regions.now }
    ensures { IfOk result (λ n. (all : Listed ACandidate) × AreCandidates tile.now lines.now discs.now regions.now all
        × (n.parts ≡ length all) × (n.inside ≡ length (filter (is_odd_candidate profile.now table.now regions.now) all))) }
{
    let parities = parities_of(alloc, profile, table, regions)?;
    let mut parts: u128 = 0;
    let mut inside: u128 = 0;
    for r in 0..regions.len() {
        let found = candidates_of_region(alloc, tile, lines, r, regions.get(r), discs)?;
        let odd = odd_among(parities.get(r), found.as_slice());
        parts += found.len() as u128;
        inside += odd as u128;
    }
    Ok(PartCounts { parts, inside })
}

// How many parts the contours of a table divide their box into.
fn counts_of(alloc: Global, profile: &Profile, table: &CurveTable) -> Result<PartCounts, Memory>
    requires curves { AreCurves profile.now table.now }
    requires sized { AreSized table.now }
    requires few { AreFew table.now }
    ensures { IfOk result (λ n. (box : ABox) × IsBoxOf profile.now box × AreParted contours profile.now box n.parts n.inside) }
{
    let tile = box2(profile);
    let lines = table.line_list(alloc)?;
    let discs = table.disc_list(alloc)?;
    let regions = cells::<Flat>(alloc, &tile, lines.as_slice())?;
    profile.law();
    odd_mask_law(profile, table);
    straight_cell_law(profile);
    count_regions(
        alloc,
        profile,
        table,
        &tile,
        lines.as_slice(),
        &regions,
        discs.as_slice(),
    )
}

/// How many parts closed contours divide their box into, which are the masks of all candidates, and how many of them are
/// odd. The candidates of one region at a time are held. `TooManyLines` or `TooManyDiscs` where the contours have more
/// half-spaces than a conversion takes.
pub fn contour_part_counts(alloc: Global, profile: &Profile) -> Result<PartCounts, NatFault>
    ensures ok { IfOk result (λ n. (box : ABox) × IsBoxOf profile.now box × AreParted contours profile.now box n.parts n.inside) }
    ensures err { IfErr result (IsLimitFault profile.now) }
{
    let table = curves(alloc, profile)?;
    Ok(counts_of(alloc, profile, &table)?)
}
