//! The cells of a mesh, told inside or outside by the parities of their inner points.
ghost use Rattle.std.specs.Prelude.{IfOk, All};
ghost use Rattle.bc_num.specs.Sizes.{IsLargePoint3};
ghost use Rattle.bc_classify.specs.CellSplits.{IsSplit3};

use crate::{Marked3, Split3};
use bc_cells::Cell;
use bc_num::{List, Memory};
use bc_parity::odd3;
use bc_solid::Solid;
use bc_space::Solid3;
use std::alloc::Global;

/// The cells in two lists, inside and outside, each in order: inside where the ray from the inner point crosses the faces of
/// `s` an odd number of times. Where the cells are those of the planes of `s`, every point of a cell is then so.
///
/// `Memory` where there is no room. The time grows as the cells times the corners of the faces.
pub fn classify3(alloc: Global, s: &Solid, cells: &List<Cell<Solid3>>) -> Result<Split3, Memory>
    requires { All (λ c. IsLargePoint3 c.inner) cells.now }
    ensures { IfOk result (IsSplit3 s.now cells.now) }
{
    let mut inside = List::new(alloc);
    let mut outside = List::new(alloc);
    for cell in cells.as_slice() {
        let marked = Marked3 {
            mask: cell.mask,
            inner: cell.inner,
        };
        if odd3(s, &cell.inner) {
            inside.push(marked)?;
        } else {
            outside.push(marked)?;
        }
    }
    Ok(Split3 { inside, outside })
}
