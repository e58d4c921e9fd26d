//! `carve`: the CSG text of a boundary as products less products. The boundary's division is the one thing that the two kinds
//! have for themselves; what is made of it is the same for both.
ghost use Rattle.std.specs.Prelude.{◌≡◌, List, ℕ, IfOk, IfErr};
ghost use Rattle.bc_num.specs.declared.box2.Box2.{Box2};
ghost use Rattle.bc_num.specs.declared.box3.Box3.{Box3};
ghost use Rattle.bc_solid.specs.declared.element.Element.{Element};
ghost use Rattle.bc_solid.specs.Facets.{Facet};
ghost use Rattle.bc_formula.specs.ContourGeometry.{contours};
ghost use Rattle.bc_formula.specs.MeshGeometry.{meshes};
ghost use Rattle.bc_formula.specs.Divisions.{IsDivision};
ghost use Rattle.bc_formula.specs.declared.terms.Division.{Division};
ghost use Rattle.bc_pieces.specs.Carved.{IsCarvedFrom};
ghost use Rattle.bc_top.specs.Answers.{carve_promise};
ghost use Rattle.bc_top.specs.Carves.{IsDivisionOfKind, StopsKind};
ghost use Rattle.bc_top.specs.ContourTexts.{contour_texts, HasProfile};
ghost use Rattle.bc_top.specs.Converts.{IsConvertRefusal};
ghost use Rattle.bc_top.specs.MeshTexts.{mesh_texts, HasSolid};
ghost use Rattle.bc_top.specs.Promises.{Fulfils};
ghost use Rattle.bc_top.specs.Stages.{Stops};
ghost use Rattle.bc_top.specs.Streams.{reading, writing, IsRead};

use crate::boundary::{MOST_BYTES, read_profile, read_solid};
use crate::command::Kind;
use crate::layout::put_layout;
use bc_formula::{Division, Formula, Masks, contour_division, mesh_division};
use bc_io::{Sink, Source};
use bc_pieces::carved_formula_of;
use bc_status::Status;
use std::alloc::Global;

// What the contours that the source gives divide their box into, by their lean masks; else why there are none.
fn read_contour_division<S: Source>(alloc: Global, source: &mut S) -> Result<Division, Status>
    ensures ok { IfOk result (λ d. (bytes : List ℕ) × IsRead (reading S.left S.faults source.old source.new) bytes
        × (es : List Element) × HasProfile bytes es × (box : Box2) × IsDivision contours contours.lean_mask es box d) }
    ensures err { IfErr result (Stops MOST_BYTES (IsConvertRefusal contours contour_texts) (reading S.left S.faults source.old source.new)) }
{
    let profile = read_profile(alloc, source)?;
    Ok(contour_division(alloc, &profile, Masks::Lean)?)
}

// What the mesh that the source gives divides its box into; else why there is none.
fn read_mesh_division<S: Source>(alloc: Global, source: &mut S) -> Result<Division, Status>
    ensures ok { IfOk result (λ d. (bytes : List ℕ) × IsRead (reading S.left S.faults source.old source.new) bytes
        × (fs : List Facet) × HasSolid bytes fs × (box : Box3) × IsDivision meshes meshes.lean_mask fs box d) }
    ensures err { IfErr result (Stops MOST_BYTES (IsConvertRefusal meshes mesh_texts) (reading S.left S.faults source.old source.new)) }
{
    let solid = read_solid(alloc, source)?;
    Ok(mesh_division(alloc, &solid)?)
}

// The same of a boundary of this kind.
fn read_division<S: Source>(alloc: Global, kind: Kind, source: &mut S) -> Result<Division, Status>
    ensures ok { IfOk result (λ d. (bytes : List ℕ) × IsRead (reading S.left S.faults source.old source.new) bytes × IsDivisionOfKind kind bytes d) }
    ensures err { IfErr result (StopsKind kind (reading S.left S.faults source.old source.new)) }
{
    match kind {
        Kind::Contour => read_contour_division(alloc, source),
        Kind::Off => read_mesh_division(alloc, source),
    }
}

// The carved formula of the boundary that the source gives; else why there is none.
fn read_carved<S: Source>(alloc: Global, kind: Kind, source: &mut S) -> Result<Formula, Status>
    ensures ok { IfOk result (λ f. (bytes : List ℕ) × IsRead (reading S.left S.faults source.old source.new) bytes
        × (d : Division) × IsDivisionOfKind kind bytes d × IsCarvedFrom d f) }
    ensures err { IfErr result (StopsKind kind (reading S.left S.faults source.old source.new)) }
{
    let division = read_division(alloc, kind, source)?;
    Ok(carved_formula_of(alloc, &division)?)
}

/// Reads a boundary of this kind and writes its CSG text as products less products.
pub fn carve_boundary<S: Source, O: Sink>(
    alloc: Global,
    kind: Kind,
    source: &mut S,
    out: &mut O,
) -> Status
    ensures { Fulfils (carve_promise kind) result (reading S.left S.faults source.old source.new) (writing O.held O.faults out.old out.new) }
{
    match read_carved(alloc, kind, source) {
        Ok(formula) => put_layout(alloc, &formula.tree, &formula.head, &formula.notes, out),
        Err(status) => status,
    }
}
