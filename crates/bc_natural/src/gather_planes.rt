//! The table of the planes that a mesh induces, face by face, or the fault where they are too many. `plane_table` keeps
//! it, `limits` has the limit, and `specs/Planes` says what the table is.
ghost use Rattle.std.specs.Prelude.{List, IfOk, IfErr};
ghost use Rattle.bc_solid.specs.Facets.{Facet};
ghost use Rattle.bc_natural.specs.Planes.{ArePlanes, ArePlanesSized, ArePlanesFew, IsPlaneLimitFault};

use crate::corners::first_corner;
use crate::{MOST_PLANES, NatFault, PlaneTable};
use bc_num::Memory;
use bc_solid::Solid;
use std::alloc::Global;

// The table of the faces, however large it is.
fn gather_planes(alloc: Global, s: &Solid) -> Result<PlaneTable, Memory>
    ensures table { IfOk result (ArePlanes s.now) }
    ensures sized { IfOk result ArePlanesSized }
{
    s.law();
    let mut table = PlaneTable::new(alloc);
    for f in 0..s.faces() {
        table.add_plane(s.plane(f), first_corner(s, f))?;
    }
    Ok(table)
}

// The fault where the table passes the limit, with its number of planes.
fn check_plane_limit(table: &PlaneTable) -> Result<(), NatFault>
    ensures few { IfOk result (λ _. ArePlanesFew table.now) }
    ensures fault { (fs : List Facet) → ArePlanes fs table.now → IfErr result (IsPlaneLimitFault fs) }
{
    let planes = table.len();
    if planes > MOST_PLANES {
        return Err(NatFault::TooManyPlanes { n: planes as u64 });
    }
    Ok(())
}

/// The planes of the faces, each once: the canonical planes in the order of the faces, each with the first corner of the
/// first face that lies on it as origin. The cost grows with the number of faces, and the memory with the number of
/// distinct planes.
///
/// # Errors
///
/// `TooManyPlanes` where there are more than `MOST_PLANES` planes, with how many there are in all; `Memory` where there is none.
pub fn planes(alloc: Global, s: &Solid) -> Result<PlaneTable, NatFault>
    ensures table { IfOk result (ArePlanes s.now) }
    ensures sized { IfOk result ArePlanesSized }
    ensures few { IfOk result ArePlanesFew }
    ensures fault { IfErr result (IsPlaneLimitFault s.now) }
{
    let table = gather_planes(alloc, s)?;
    check_plane_limit(&table)?;
    Ok(table)
}
