//! The audit of a tree against a closed mesh: they agree, or they differ at a point that goes with the answer. The
//! planes of `planes` divide the box into cells, and at each cell's inner point the mesh's parity is compared with what
//! `holds` says of the tree. `specs/Audits` says what the answer tells.
ghost use Rattle.std.specs.Prelude.{◌≡◌, length, map, IfOk, IfErr, All};
ghost use Rattle.bc_num.specs.Sizes.{IsLargePoint3};
ghost use Rattle.bc_tree.specs.Shape.{shape, AllLeaves};
ghost use Rattle.bc_tree.specs.Leaves.{IsLeaf};
ghost use Rattle.bc_audit.specs.Audits.{IsAudit, IsAuditFault};
ghost use Rattle.bc_audit.specs.Compared.{IsCompared};

use crate::AuditFault;
use crate::blocks::has_one_box;
use crate::holds::holds_at;
use crate::planes::all_planes;
use bc_cells::{Cell, cells};
use bc_natural::{MOST_PLANES, box3};
use bc_num::{Memory, P3, reduce3};
use bc_parity::laws::cell_law3;
use bc_parity::odd3;
use bc_solid::Solid;
use bc_space::Solid3;
use bc_tree::Tree;
use std::alloc::Global;

/// Whether a tree means a mesh.
#[derive(Clone, Copy, Debug, PartialEq, Eq)]
pub enum Verdict {
    /// They agree at each point inside the box that is on no plane of a face and on no plane of a slab.
    Same,
    /// They differ at this point, which is such a point, in lowest terms.
    Differs(P3),
}

fn masks_of(alloc: Global, cells: &[Cell<Solid3>]) -> Result<Vec<u64>, Memory>
    ensures { IfOk result (λ masks. masks.items ≡ map (λ c. c.mask) cells.now) }
{
    let mut masks = Vec::new(alloc);
    for cell in cells {
        masks.push(cell.mask)?;
    }
    Ok(masks)
}

// Compares the parity at each cell's inner point with whether the tree holds there.
fn compare(s: &Solid, cells: &[Cell<Solid3>], holds: &[bool]) -> Verdict
    requires large { All (λ c. IsLargePoint3 c.inner) cells.now }
    requires each { length holds.now ≡ length cells.now }
    ensures { IsCompared s.now cells.now holds.now result }
{
    for i in 0..cells.len() {
        let cell = &cells[i];
        if odd3(s, &cell.inner) != holds[i] {
            return Verdict::Differs(reduce3(cell.inner));
        }
    }
    Verdict::Same
}

/// Compares a formula with a closed mesh, cell by cell of the planes of faces and slabs. The tree's leaves are within their
/// ranges. A plane of a slab is that through its origin with its normal. (A leaf of the plane has no point of space.) The
/// cost grows with the cells times the leaves and the corners.
///
/// # Errors
///
/// `OtherBox` exactly where a block of the tree is not the box of the mesh; `TooManyPlanes` exactly where none is so, and
/// there are more distinct planes of faces and slabs than `MOST_PLANES`, with how many there are; `Memory` where there is none.
pub fn audit(alloc: Global, s: &Solid, t: &Tree) -> Result<Verdict, AuditFault>
    requires { AllLeaves IsLeaf (shape t.now) }
    ensures ok { IfOk result (IsAudit s.now (shape t.now)) }
    ensures err { IfErr result (IsAuditFault s.now (shape t.now)) }
{
    let block = box3(s);
    if !has_one_box(t, &block) {
        return Err(AuditFault::OtherBox);
    }
    let set = all_planes(alloc, s, t)?;
    let planes = set.as_slice();
    if planes.len() > MOST_PLANES {
        return Err(AuditFault::TooManyPlanes {
            n: planes.len() as u64,
        });
    }
    let all = cells::<Solid3>(alloc, &block, planes)?;
    let masks = masks_of(alloc, all.as_slice())?;
    let holds = holds_at(alloc, t, planes, &masks)?;
    cell_law3(s);
    Ok(compare(s, all.as_slice(), &holds))
}
