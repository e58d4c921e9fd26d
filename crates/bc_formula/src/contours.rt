//! The division and the formula of closed contours. The lines divide the box into regions, each region is taken with
//! sets of discs, and the masks of these are told inside or outside. `terms` makes the formula of a division, `masks`
//! says which masks a division has, and `meshes` does the same for meshes.
ghost use Rattle.std.specs.Prelude.{◌≡◌, ◌<◌, ◌≤◌, ◌++◌, map, length, slice_get, Some, IfOk, IfErr, OnOk, option_map, All};
ghost use Rattle.bc_num.specs.Points.{IsReduced2};
ghost use Rattle.bc_num.specs.Sizes.{IsSmallPoint};
ghost use Rattle.bc_space.specs.Discs.{IsSizedDisc};
ghost use Rattle.bc_space.specs.Flat.{IsSizedBox2, met2, walls2};
ghost use Rattle.bc_cells.specs.Cells.{AreCells};
ghost use Rattle.bc_discs.specs.Candidates.{AreCandidatesOf};
ghost use Rattle.bc_formula.specs.ContourPoints.{keeping_of};
ghost use Rattle.bc_natural.specs.Curves.{AreCurves};
ghost use Rattle.bc_natural.specs.Limits.{AreSized, AreFew, IsLimitFault, IsNearBox};
ghost use Rattle.bc_tree.specs.declared.tree.Leaf.TheVariants.{Disc};
ghost use Rattle.bc_tree.specs.Shape.{shape};
ghost use Rattle.bc_formula.specs.Divisions.{mask_kind, AreDivided, AreMasks, IsDivision};
ghost use Rattle.bc_space.specs.Lines.{line_side, IsSizedLine};
ghost use Rattle.bc_num.specs.declared.box2.Box2.{Box2 as ABox};
ghost use Rattle.bc_natural.specs.Masks.{curve_mask};
ghost use Rattle.bc_text.specs.declared.note.Head.TheVariants.{Contour};
ghost use Rattle.bc_text.specs.declared.note.Spot.TheVariants.{Flat as FlatSpot};
ghost use Rattle.bc_formula.specs.Shown.{masks_of, AreShownParts};
ghost use Rattle.bc_formula.specs.ContourDivision.{shown2};
ghost use Rattle.bc_formula.specs.ContourGeometry.{contours, direction_of, leaves_of, strip_leaf};
ghost use Rattle.bc_formula.specs.Headline.{IsFormula};

use crate::masks::Masks;
use crate::terms::{Division, Formula, Parts, formula_of};
use bc_cells::{Cell, cells};
use bc_classify::laws::odd_mask_law;
use bc_classify::{Marked2, Split2, classify2};
use bc_discs::{Candidate, candidates, lean_candidates};
use bc_natural::{CurveTable, NatFault, box2, curves};
use bc_notes::Shown;
use bc_num::{Box2, Disc2, List, Memory, P2, V2};
use bc_parity::laws::{outside_law2, straight_cell_law};
use bc_solid::Profile;
use bc_space::{Flat, Line2};
use bc_text::{Head, Spot};
use bc_tree::{Frame2, Leaf};
use std::alloc::Global;

// The point as it stands in notes.
fn spot(seen: Option<P2>) -> Option<Spot>
    ensures { result ≡ option_map FlatSpot seen }
{
    match seen {
        Some(p) => Some(Spot::Flat(p)),
        None => None,
    }
}

// The masks as notes have them: each with its point, if it has one.
fn shown(alloc: Global, marks: &[Marked2]) -> Result<Vec<Shown>, Memory>
    ensures { IfOk result (λ v. v.items ≡ map shown2 marks.now) }
{
    let mut shown = Vec::new(alloc);
    for mark in marks {
        shown.push(Shown {
            mask: mark.mask,
            spot: spot(mark.seen),
        })?;
    }
    Ok(shown)
}

/// The masks inside and outside as notes have them.
pub fn parts_of(alloc: Global, split: &Split2) -> Result<Parts, Memory>
    ensures inside { IfOk result (λ m. m.inside.items ≡ map shown2 split.now.inside) }
    ensures outside { IfOk result (λ m. m.outside.items ≡ map shown2 split.now.outside) }
{
    Ok(Parts {
        inside: shown(alloc, split.inside.as_slice())?,
        outside: shown(alloc, split.outside.as_slice())?,
    })
}

// The candidates of regions and discs that have these masks.
fn candidates_of(
    alloc: Global,
    which: Masks,
    bounds: &Box2,
    lines: &[Line2],
    regions: &List<Cell<Flat>>,
    discs: &[Disc2],
) -> Result<List<Candidate>, Memory>
    requires few_lines { length lines.now ≤ 40 }
    requires few_discs { length discs.now ≤ 10 }
    requires box_sized { IsSizedBox2 bounds.now }
    requires lines_sized { All IsSizedLine lines.now }
    requires discs_sized { All IsSizedDisc discs.now }
    requires cells { AreCells IsSmallPoint line_side met2 2 (walls2 bounds.now) lines.now regions.now }
    requires reduced { All (λ c. All IsReduced2 c.corners) regions.now }
    ensures { IfOk result (AreCandidatesOf (keeping_of which) bounds.now lines.now discs.now regions.now) }
{
    match which {
        Masks::Whole => candidates(alloc, bounds, lines, regions, discs),
        Masks::Lean => lean_candidates(alloc, bounds, lines, regions, discs),
    }
}

// The masks of the regions of the lines with sets of discs, by whether they are odd, with the samples that were seen.
fn divide(
    alloc: Global,
    profile: &Profile,
    which: Masks,
    table: &CurveTable,
    tile: &Box2,
) -> Result<Parts, Memory>
    requires curves { AreCurves profile.now table.now }
    requires sized { AreSized table.now }
    requires few { AreFew table.now }
    requires near { IsNearBox tile.now }
    ensures masks { IfOk result (λ m. AreMasks (leaves_of table.now) (masks_of m.inside.items) (masks_of m.outside.items)) }
    ensures divided { IfOk result (λ m. AreDivided contours profile.now tile.now (curve_mask table.now) (masks_of m.inside.items) (masks_of m.outside.items)) }
    ensures parts { IfOk result (λ m. AreShownParts contours (mask_kind which contours) profile.now tile.now (curve_mask table.now) m.inside.items m.outside.items) }
{
    let lines = table.line_list(alloc)?;
    let discs = table.disc_list(alloc)?;
    let regions = cells::<Flat>(alloc, tile, lines.as_slice())?;
    let found = candidates_of(
        alloc,
        which,
        tile,
        lines.as_slice(),
        &regions,
        discs.as_slice(),
    )?;
    let split = classify2(alloc, profile, table, &regions, &found)?;
    profile.law();
    odd_mask_law(profile, table);
    straight_cell_law(profile);
    parts_of(alloc, &split)
}

// The direction whose normal, turned to the left, is that of the line.
fn direction(line: &Line2) -> V2
    requires { IsSizedLine line.now }
    ensures { result ≡ direction_of line.now }
{
    V2 {
        x: line.b,
        y: -line.a,
    }
}

// The strip of the line with this number.
fn strip(table: &CurveTable, i: usize) -> Leaf
    requires within { i < length table.now.lines }
    requires sized { AreSized table.now }
    ensures { slice_get (map strip_leaf table.now.lines) i ≡ Some result }
{
    let (line, o) = table.entry(i);
    Leaf::Strip(Frame2 {
        o,
        u: direction(&line),
    })
}

fn add_strips(leaves: &mut List<Leaf>, table: &CurveTable) -> Result<(), Memory>
    requires sized { AreSized table.now }
    ensures { OnOk result (leaves.new ≡ leaves.old ++ map strip_leaf table.now.lines) }
{
    for i in 0..table.lines() {
        leaves.push(strip(table, i))?;
    }
    Ok(())
}

fn add_discs(leaves: &mut List<Leaf>, table: &CurveTable) -> Result<(), Memory>
    ensures { OnOk result (leaves.new ≡ leaves.old ++ map Disc table.now.discs) }
{
    for i in 0..table.discs() {
        leaves.push(Leaf::Disc(table.disc(i)))?;
    }
    Ok(())
}

/// The leaves of the half-spaces, in the order of the table.
pub fn leaves(alloc: Global, table: &CurveTable) -> Result<List<Leaf>, Memory>
    requires sized { AreSized table.now }
    ensures { IfOk result (λ ls. ls ≡ leaves_of table.now) }
{
    let mut leaves = List::new(alloc);
    add_strips(&mut leaves, table)?;
    add_discs(&mut leaves, table)?;
    Ok(leaves)
}

// What the contours of a table divide their box into, with these masks.
fn division_of(
    alloc: Global,
    profile: &Profile,
    which: Masks,
    table: &CurveTable,
) -> Result<Division, Memory>
    requires curves { AreCurves profile.now table.now }
    requires sized { AreSized table.now }
    requires few { AreFew table.now }
    ensures { IfOk result (λ d. (box : ABox) × IsDivision contours (mask_kind which contours) profile.now box d) }
{
    outside_law2(profile);
    let tile = box2(profile);
    let parts = divide(alloc, profile, which, table, &tile)?;
    Ok(Division {
        block: Leaf::Tile(tile),
        head: Head::Contour(tile),
        leaves: leaves(alloc, table)?,
        inside: parts.inside,
        outside: parts.outside,
    })
}

/// What closed contours divide their box into, with these masks. `TooManyLines` or `TooManyDiscs` where they have more
/// half-spaces than a conversion takes.
pub fn contour_division(
    alloc: Global,
    profile: &Profile,
    which: Masks,
) -> Result<Division, NatFault>
    ensures ok { IfOk result (λ d. (box : ABox) × IsDivision contours (mask_kind which contours) profile.now box d) }
    ensures err { IfErr result (IsLimitFault profile.now) }
{
    let table = curves(alloc, profile)?;
    Ok(division_of(alloc, profile, which, &table)?)
}

/// The formula of closed contours: terms of the half-spaces that they induce, which cover the lean masks. `TooManyLines`
/// or `TooManyDiscs` where these half-spaces are more than a conversion takes.
pub fn contour_formula(alloc: Global, profile: &Profile) -> Result<Formula, NatFault>
    ensures ok { IfOk result (λ f. (box : ABox) × (f.head ≡ Contour box) × IsFormula contours profile.now box (shape f.tree) f.notes.items) }
    ensures err { IfErr result (IsLimitFault profile.now) }
{
    let division = contour_division(alloc, profile, Masks::Lean)?;
    Ok(formula_of(alloc, &division)?)
}
