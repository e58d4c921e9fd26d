//! Contours in two parts.
ghost use Rattle.std.specs.Prelude.{◌≡◌, ◌≤◌, ◌+◌, ◌++◌, ◌^◌, length, false, IfOk, IfErr};
ghost use Rattle.bc_num.specs.declared.p2.P2.{P2};
ghost use Rattle.bc_num.specs.declared.box2.Box2.{Box2 as ABox};
ghost use Rattle.bc_solid.specs.Boxes.{IsBoxOf, IsOutside};
ghost use Rattle.bc_parity.specs.Laws.{StraightCellLaw};
ghost use Rattle.bc_natural.specs.Curves.{AreCurves};
ghost use Rattle.bc_natural.specs.Limits.{AreSized, AreFew, IsLimitFault, IsNearBox};
ghost use Rattle.bc_natural.specs.Masks.{curve_mask};
ghost use Rattle.bc_text.specs.declared.note.Head.TheVariants.{Contour};
ghost use Rattle.bc_tree.specs.Shape.{shape};
ghost use Rattle.bc_formula.specs.Shown.{masks_of, AreShownParts};
ghost use Rattle.bc_formula.specs.Divisions.{AreDivided, AreMasks, IsDivision};
ghost use Rattle.bc_formula.specs.ContourGeometry.{leaves_of};
ghost use Rattle.bc_formula.specs.Headline.{IsFormula};
ghost use Rattle.bc_joint.specs.Pairs.{pair, both};
ghost use Rattle.bc_joint.specs.ContourPairs.{is_chosen_at, contour_pairs};

use bc_cells::cells;
use bc_classify::laws::{joint_mask_law, odd_mask_law};
use bc_combine::{Op, combine2};
use bc_discs::lean_candidates;
use bc_formula::contours::{leaves, parts_of};
use bc_formula::{Division, Formula, Parts, formula_of};
use bc_natural::{CurveTable, NatFault, box2, curves};
use bc_num::{Box2, Memory};
use bc_parity::laws::{outside_law2, straight_cell_law};
use bc_solid::{Profile, join_profiles};
use bc_space::Flat;
use bc_text::Head;
use bc_tree::Leaf;
use std::alloc::Global;

// Outside the closed box of both the operation is true nowhere. It does nothing: its promise is the law.
fn outside_pair_law(op: Op, a: &Profile, b: &Profile)
    ensures { (box : ABox) (p : P2) → IsBoxOf (a.now ++ b.now) box → IsOutside box p → is_chosen_at op (pair a.now b.now) p ≡ false }
{
    outside_law2(a);
    outside_law2(b);
    // Each part has a box of its own.
    let _first = box2(a);
    let _second = box2(b);
}

// The lean masks of the regions of the lines of both with sets of discs, by whether the operation is true of them, with
// the samples that were seen.
fn divide(
    alloc: Global,
    op: Op,
    a: &Profile,
    b: &Profile,
    joint: &Profile,
    table: &CurveTable,
    tile: &Box2,
) -> Result<Parts, Memory>
    requires joined { joint.now ≡ both (pair a.now b.now) }
    requires curves { AreCurves joint.now table.now }
    requires sized { AreSized table.now }
    requires few { AreFew table.now }
    requires near { IsNearBox tile.now }
    ensures masks { IfOk result (λ m. AreMasks (leaves_of table.now) (masks_of m.inside.items) (masks_of m.outside.items)) }
    ensures divided { IfOk result (λ m. AreDivided (contour_pairs op) (pair a.now b.now) tile.now (curve_mask table.now) (masks_of m.inside.items) (masks_of m.outside.items)) }
    ensures parts { IfOk result (λ m. AreShownParts (contour_pairs op) (contour_pairs op).lean_mask (pair a.now b.now) tile.now (curve_mask table.now) m.inside.items m.outside.items) }
{
    let lines = table.line_list(alloc)?;
    let discs = table.disc_list(alloc)?;
    let regions = cells::<Flat>(alloc, tile, lines.as_slice())?;
    let lean = lean_candidates(alloc, tile, lines.as_slice(), &regions, discs.as_slice())?;
    let split = combine2(alloc, op, a, b, table, &regions, &lean)?;
    joint.law();
    odd_mask_law(joint, table);
    joint_mask_law(a, b, table);
    straight_cell_law(a);
    straight_cell_law(b);
    parts_of(alloc, &split)
}

// What both parts, whose elements are those of `joint`, divide their box into, with the lean masks.
fn joint_division(
    alloc: Global,
    op: Op,
    a: &Profile,
    b: &Profile,
    joint: &Profile,
) -> Result<Division, NatFault>
    requires { joint.now ≡ both (pair a.now b.now) }
    ensures ok { IfOk result (λ d. (box : ABox) × IsDivision (contour_pairs op) (contour_pairs op).lean_mask (pair a.now b.now) box d) }
    ensures err { IfErr result (IsLimitFault joint.now) }
{
    outside_law2(joint);
    outside_pair_law(op, a, b);
    let table = curves(alloc, joint)?;
    let tile = box2(joint);
    let parts = divide(alloc, op, a, b, joint, &table, &tile)?;
    Ok(Division {
        block: Leaf::Tile(tile),
        head: Head::Contour(tile),
        leaves: leaves(alloc, &table)?,
        inside: parts.inside,
        outside: parts.outside,
    })
}

// What both parts divide their box into, with the lean masks.
fn contour_pair_division(
    alloc: Global,
    op: Op,
    a: &Profile,
    b: &Profile,
) -> Result<Division, NatFault>
    requires { length a.now + length b.now ≤ 2 ^ 20 }
    ensures ok { IfOk result (λ d. (box : ABox) × IsDivision (contour_pairs op) (contour_pairs op).lean_mask (pair a.now b.now) box d) }
    ensures err { IfErr result (IsLimitFault (a.now ++ b.now)) }
{
    let joint = join_profiles(alloc, a, b)?;
    joint_division(alloc, op, a, b, &joint)
}

/// The formula of closed contours in two parts with an operation: terms of the half-spaces that both induce, which cover
/// the lean masks. `TooManyLines` or `TooManyDiscs` where these half-spaces are more than a conversion takes. Together the
/// parts have at most 2^20 elements.
pub fn contour_pair_formula(
    alloc: Global,
    op: Op,
    a: &Profile,
    b: &Profile,
) -> Result<Formula, NatFault>
    requires { length a.now + length b.now ≤ 2 ^ 20 }
    ensures ok { IfOk result (λ f. (box : ABox) × (f.head ≡ Contour box) × IsFormula (contour_pairs op) (pair a.now b.now) box (shape f.tree) f.notes.items) }
    ensures err { IfErr result (IsLimitFault (a.now ++ b.now)) }
{
    let division = contour_pair_division(alloc, op, a, b)?;
    Ok(formula_of(alloc, &division)?)
}
