//! The corners of a face by their coordinates, and the first corner that is the same as the next one.
ghost use Rattle.std.specs.Prelude.{◌≡◌, true, length, nat_lt, All, IfOk, IfSome, IsNone};
ghost use Rattle.std.specs.List.{list_all};
ghost use Rattle.bc_num.specs.Sizes.{AreCoords3};
ghost use Rattle.bc_solid.specs.Meshes.{is_near_place, corners_of, is_same3};
ghost use Rattle.bc_solid.specs.MeshFaults.{HasNoTwins, IsFirstTwin};

use crate::Face;
use crate::edge::edge_at;
use bc_num::{List, Memory, V3};
use std::alloc::Global;

// The corners of a face by their coordinates.
pub(crate) fn outline(alloc: Global, points: &[V3], face: &Face) -> Result<List<V3>, Memory>
    requires near { list_all is_near_place points.now ≡ true }
    requires places { list_all (λ i. nat_lt i (length points.now)) face.now ≡ true }
    ensures corners { IfOk result (λ cs. cs ≡ corners_of points.now face.now) }
    ensures near { IfOk result (All AreCoords3) }
{
    let mut corners = List::new(alloc);
    for i in face.as_slice() {
        corners.push(points[*i as usize])?;
    }
    Ok(corners)
}

fn is_same_place(a: V3, b: V3) -> bool
    ensures { result ≡ is_same3 a b }
{
    a.x == b.x && (a.y == b.y && a.z == b.z)
}

// The first place whose corner is the same as the next.
pub(crate) fn first_twin(corners: &[V3]) -> Option<usize>
    ensures none { IsNone result → HasNoTwins corners.now }
    ensures twin { IfSome result (IsFirstTwin corners.now) }
{
    for place in 0..corners.len() {
        let edge = edge_at(corners, place);
        if is_same_place(edge.from, edge.to) {
            return Some(place);
        }
    }
    None
}
