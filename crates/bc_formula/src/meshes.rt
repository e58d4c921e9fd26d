//! The division and the formula of a closed mesh. The planes of its faces divide the box into cells, and the masks of
//! the cells are told inside or outside. `terms` makes the formula of a division, and `contours` does the same for
//! contours.
ghost use Rattle.std.specs.Prelude.{◌≡◌, ◌<◌, All, map, length, slice_get, Some, IfOk, IfErr};
ghost use Rattle.bc_num.specs.Sizes.{IsLargePoint3};
ghost use Rattle.bc_num.specs.declared.box3.Box3.{Box3 as ABox};
ghost use Rattle.bc_natural.specs.Planes.{ArePlanes, ArePlanesSized, ArePlanesFew, IsPlaneLimitFault, IsNearBox3, plane_mask};
ghost use Rattle.bc_text.specs.declared.note.Head.TheVariants.{Solid as SolidHead};
ghost use Rattle.bc_tree.specs.Shape.{shape};
ghost use Rattle.bc_formula.specs.Shown.{masks_of, AreShownParts};
ghost use Rattle.bc_formula.specs.MeshDivision.{shown3};
ghost use Rattle.bc_formula.specs.Divisions.{AreDivided, AreMasks, IsDivision};
ghost use Rattle.bc_formula.specs.MeshGeometry.{meshes, slabs_of};
ghost use Rattle.bc_formula.specs.Headline.{IsFormula};

use crate::terms::{Division, Formula, Parts, formula_of};
use bc_cells::cells;
use bc_classify::laws::odd_cell_law;
use bc_classify::{Marked3, Split3, classify3};
use bc_natural::{NatFault, PlaneTable, box3, planes};
use bc_notes::Shown;
use bc_num::{Box3, List, Memory, reduce3};
use bc_parity::laws::outside_law3;
use bc_solid::Solid;
use bc_space::Solid3;
use bc_text::{Head, Spot};
use bc_tree::{Frame3, Leaf};
use std::alloc::Global;

// The mask, and its point in lowest terms.
fn shown_mark(mark: &Marked3) -> Shown
    requires { IsLargePoint3 mark.now.inner }
    ensures { result ≡ shown3 mark.now }
{
    let lowest = reduce3(mark.inner);
    Shown {
        mask: mark.mask,
        spot: Some(Spot::Solid(lowest)),
    }
}

// The masks as notes have them: each with its point in lowest terms.
fn shown(alloc: Global, marks: &[Marked3]) -> Result<Vec<Shown>, Memory>
    requires { All (λ m. IsLargePoint3 m.inner) marks.now }
    ensures { IfOk result (λ v. v.items ≡ map shown3 marks.now) }
{
    let mut shown = Vec::new(alloc);
    for mark in marks {
        shown.push(shown_mark(mark))?;
    }
    Ok(shown)
}

/// The masks inside and outside as notes have them.
pub fn parts_of(alloc: Global, split: &Split3) -> Result<Parts, Memory>
    requires inside { All (λ m. IsLargePoint3 m.inner) split.now.inside }
    requires outside { All (λ m. IsLargePoint3 m.inner) split.now.outside }
    ensures inside { IfOk result (λ m. m.inside.items ≡ map shown3 split.now.inside) }
    ensures outside { IfOk result (λ m. m.outside.items ≡ map shown3 split.now.outside) }
{
    Ok(Parts {
        inside: shown(alloc, split.inside.as_slice())?,
        outside: shown(alloc, split.outside.as_slice())?,
    })
}

// The masks of the cells of the planes, by whether they are odd, with their points.
fn divide(alloc: Global, solid: &Solid, table: &PlaneTable, block: &Box3) -> Result<Parts, Memory>
    requires planes { ArePlanes solid.now table.now }
    requires sized { ArePlanesSized table.now }
    requires few { ArePlanesFew table.now }
    requires near { IsNearBox3 block.now }
    ensures masks { IfOk result (λ m. AreMasks (slabs_of table.now) (masks_of m.inside.items) (masks_of m.outside.items)) }
    ensures divided { IfOk result (λ m. AreDivided meshes solid.now block.now (plane_mask table.now) (masks_of m.inside.items) (masks_of m.outside.items)) }
    ensures parts { IfOk result (λ m. AreShownParts meshes meshes.has_mask solid.now block.now (plane_mask table.now) m.inside.items m.outside.items) }
{
    let planes = table.plane_list(alloc)?;
    let all = cells::<Solid3>(alloc, block, planes.as_slice())?;
    let split = classify3(alloc, solid, &all)?;
    odd_cell_law(solid, table);
    parts_of(alloc, &split)
}

// The slab of the plane with this number.
fn slab(table: &PlaneTable, i: usize) -> Leaf
    requires within { i < length table.now }
    ensures { slice_get (slabs_of table.now) i ≡ Some result }
{
    let (plane, o) = table.entry(i);
    Leaf::Slab(Frame3 {
        o,
        n: plane.normal(),
    })
}

/// The leaves of the half-spaces, in the order of the table.
pub fn slabs(alloc: Global, table: &PlaneTable) -> Result<List<Leaf>, Memory>
    ensures { IfOk result (λ ls. ls ≡ slabs_of table.now) }
{
    let mut leaves = List::new(alloc);
    for i in 0..table.len() {
        leaves.push(slab(table, i))?;
    }
    Ok(leaves)
}

// What the mesh of a table divides its box into.
fn division_of(alloc: Global, solid: &Solid, table: &PlaneTable) -> Result<Division, Memory>
    requires planes { ArePlanes solid.now table.now }
    requires sized { ArePlanesSized table.now }
    requires few { ArePlanesFew table.now }
    ensures { IfOk result (λ d. (box : ABox) × IsDivision meshes meshes.has_mask solid.now box d) }
{
    solid.law();
    outside_law3(solid);
    let block = box3(solid);
    let parts = divide(alloc, solid, table, &block)?;
    Ok(Division {
        block: Leaf::Block(block),
        head: Head::Solid(block),
        leaves: slabs(alloc, table)?,
        inside: parts.inside,
        outside: parts.outside,
    })
}

/// What a closed mesh divides its box into. `TooManyPlanes` where it has more half-spaces than a conversion takes.
pub fn mesh_division(alloc: Global, solid: &Solid) -> Result<Division, NatFault>
    ensures ok { IfOk result (λ d. (box : ABox) × IsDivision meshes meshes.has_mask solid.now box d) }
    ensures err { IfErr result (IsPlaneLimitFault solid.now) }
{
    let table = planes(alloc, solid)?;
    Ok(division_of(alloc, solid, &table)?)
}

/// The formula of a closed mesh: terms of the half-spaces of its planes. `TooManyPlanes` where these are more than a
/// conversion takes.
pub fn mesh_formula(alloc: Global, solid: &Solid) -> Result<Formula, NatFault>
    ensures ok { IfOk result (λ f. (box : ABox) × (f.head ≡ SolidHead box) × IsFormula meshes solid.now box (shape f.tree) f.notes.items) }
    ensures err { IfErr result (IsPlaneLimitFault solid.now) }
{
    let division = mesh_division(alloc, solid)?;
    Ok(formula_of(alloc, &division)?)
}
