//! The cells of two meshes, told inside or outside by an operation on the parities of their inner points.
ghost use Rattle.std.specs.Prelude.{IfOk, All};
ghost use Rattle.bc_num.specs.Sizes.{IsLargePoint3};
ghost use Rattle.bc_combine.specs.Combined.{IsCombined3};

use crate::Op;
use bc_cells::Cell;
use bc_classify::{Marked3, Split3};
use bc_num::{List, Memory};
use bc_parity::odd3;
use bc_solid::Solid;
use bc_space::Solid3;
use std::alloc::Global;

/// The cells in two lists, inside and outside, each in order: inside where the operation is true of the parities of `a` and
/// of `b` at the inner point. Where the cells are those of the planes of both, every point of a cell is then so.
///
/// `Memory` where there is no room. The time grows as the cells times the corners of the faces of both.
pub fn combine3(
    alloc: Global,
    op: Op,
    a: &Solid,
    b: &Solid,
    cells: &List<Cell<Solid3>>,
) -> Result<Split3, Memory>
    requires { All (λ c. IsLargePoint3 c.inner) cells.now }
    ensures { IfOk result (IsCombined3 op a.now b.now cells.now) }
{
    let mut inside = List::new(alloc);
    let mut outside = List::new(alloc);
    for cell in cells.as_slice() {
        let marked = Marked3 {
            mask: cell.mask,
            inner: cell.inner,
        };
        if op.is_true(odd3(a, &cell.inner), odd3(b, &cell.inner)) {
            inside.push(marked)?;
        } else {
            outside.push(marked)?;
        }
    }
    Ok(Split3 { inside, outside })
}
