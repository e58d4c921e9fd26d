//! Two meshes.
ghost use Rattle.std.specs.Prelude.{◌≡◌, ◌≤◌, ◌+◌, ◌++◌, ◌^◌, length, false, All, map, IfOk, IfErr};
ghost use Rattle.bc_num.specs.declared.p3.P3.{P3};
ghost use Rattle.bc_num.specs.declared.box3.Box3.{Box3 as ABox};
ghost use Rattle.bc_solid.specs.Boxes3.{IsBoxOf3, IsOutside3};
ghost use Rattle.bc_solid.specs.Facets.{outlines};
ghost use Rattle.bc_solid.specs.Meshes.{corner_count};
ghost use Rattle.bc_natural.specs.Planes.{ArePlanes, ArePlanesSized, ArePlanesFew, IsPlaneLimitFault, IsNearBox3, plane_mask};
ghost use Rattle.bc_text.specs.declared.note.Head.TheVariants.{Solid as SolidHead};
ghost use Rattle.bc_tree.specs.Shape.{shape};
ghost use Rattle.bc_formula.specs.Shown.{masks_of, AreShownParts};
ghost use Rattle.bc_formula.specs.Divisions.{AreDivided, AreMasks, IsDivision};
ghost use Rattle.bc_formula.specs.MeshGeometry.{slabs_of};
ghost use Rattle.bc_formula.specs.Headline.{IsFormula};
ghost use Rattle.bc_joint.specs.Pairs.{pair, both};
ghost use Rattle.bc_joint.specs.MeshPairs.{is_chosen_at3, mesh_pairs};

use bc_cells::cells;
use bc_classify::laws::{joint_cell_law, odd_cell_law};
use bc_combine::{Op, combine3};
use bc_formula::meshes::{parts_of, slabs};
use bc_formula::{Division, Formula, Parts, formula_of};
use bc_natural::{NatFault, PlaneTable, box3, planes};
use bc_num::{Box3, Memory};
use bc_parity::laws::outside_law3;
use bc_solid::{Solid, join_solids};
use bc_space::Solid3;
use bc_text::Head;
use bc_tree::Leaf;
use std::alloc::Global;

// Outside the closed box of both the operation is true nowhere. It does nothing: its promise is the law.
fn outside_pair_law(op: Op, a: &Solid, b: &Solid)
    ensures { (box : ABox) (p : P3) → IsBoxOf3 (a.now ++ b.now) box → IsOutside3 box p → is_chosen_at3 op (pair a.now b.now) p ≡ false }
{
    outside_law3(a);
    outside_law3(b);
    // Each part has a box of its own.
    let _first = box3(a);
    let _second = box3(b);
}

// The masks of the cells of the planes of both, by whether the operation is true there, with their points.
fn divide(
    alloc: Global,
    op: Op,
    a: &Solid,
    b: &Solid,
    joint: &Solid,
    table: &PlaneTable,
    block: &Box3,
) -> Result<Parts, Memory>
    requires joined { joint.now ≡ both (pair a.now b.now) }
    requires planes { ArePlanes joint.now table.now }
    requires sized { ArePlanesSized table.now }
    requires few { ArePlanesFew table.now }
    requires near { IsNearBox3 block.now }
    ensures masks { IfOk result (λ m. AreMasks (slabs_of table.now) (masks_of m.inside.items) (masks_of m.outside.items)) }
    ensures divided { IfOk result (λ m. AreDivided (mesh_pairs op) (pair a.now b.now) block.now (plane_mask table.now) (masks_of m.inside.items) (masks_of m.outside.items)) }
    ensures parts { IfOk result (λ m. AreShownParts (mesh_pairs op) (mesh_pairs op).lean_mask (pair a.now b.now) block.now (plane_mask table.now) m.inside.items m.outside.items) }
{
    let planes = table.plane_list(alloc)?;
    let all = cells::<Solid3>(alloc, block, planes.as_slice())?;
    let split = combine3(alloc, op, a, b, &all)?;
    odd_cell_law(joint, table);
    joint_cell_law(a, b, table);
    parts_of(alloc, &split)
}

// What both meshes, whose faces are those of `joint`, divide their box into.
fn joint_division(
    alloc: Global,
    op: Op,
    a: &Solid,
    b: &Solid,
    joint: &Solid,
) -> Result<Division, NatFault>
    requires { joint.now ≡ both (pair a.now b.now) }
    ensures ok { IfOk result (λ d. (box : ABox) × IsDivision (mesh_pairs op) (mesh_pairs op).lean_mask (pair a.now b.now) box d) }
    ensures err { IfErr result (IsPlaneLimitFault joint.now) }
{
    joint.law();
    outside_law3(joint);
    outside_pair_law(op, a, b);
    let table = planes(alloc, joint)?;
    let block = box3(joint);
    let parts = divide(alloc, op, a, b, joint, &table, &block)?;
    Ok(Division {
        block: Leaf::Block(block),
        head: Head::Solid(block),
        leaves: slabs(alloc, &table)?,
        inside: parts.inside,
        outside: parts.outside,
    })
}

// What both meshes divide their box into.
fn mesh_pair_division(alloc: Global, op: Op, a: &Solid, b: &Solid) -> Result<Division, NatFault>
    requires faces { length a.now + length b.now ≤ 2 ^ 20 }
    requires corners { corner_count (outlines a.now) + corner_count (outlines b.now) ≤ 2 ^ 20 }
    ensures ok { IfOk result (λ d. (box : ABox) × IsDivision (mesh_pairs op) (mesh_pairs op).lean_mask (pair a.now b.now) box d) }
    ensures err { IfErr result (IsPlaneLimitFault (a.now ++ b.now)) }
{
    let joint = join_solids(alloc, a, b)?;
    joint_division(alloc, op, a, b, &joint)
}

/// The formula of two closed meshes with an operation: terms of the half-spaces of the planes of both. `TooManyPlanes` where
/// these are more than a conversion takes. Together the meshes have at most 2^20 faces, and at most 2^20 corners.
pub fn mesh_pair_formula(alloc: Global, op: Op, a: &Solid, b: &Solid) -> Result<Formula, NatFault>
    requires faces { length a.now + length b.now ≤ 2 ^ 20 }
    requires corners { corner_count (outlines a.now) + corner_count (outlines b.now) ≤ 2 ^ 20 }
    ensures ok { IfOk result (λ f. (box : ABox) × (f.head ≡ SolidHead box) × IsFormula (mesh_pairs op) (pair a.now b.now) box (shape f.tree) f.notes.items) }
    ensures err { IfErr result (IsPlaneLimitFault (a.now ++ b.now)) }
{
    let division = mesh_pair_division(alloc, op, a, b)?;
    Ok(formula_of(alloc, &division)?)
}
