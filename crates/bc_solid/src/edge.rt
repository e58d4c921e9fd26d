//! The directed edges of faces: from each corner to the next, and from the last to the first. An edge with its lesser
//! end first is the key that `edge_table` counts by.
ghost use Rattle.std.specs.Prelude.{◌≡◌, ◌≢◌, ◌↔◌, ◌<◌, ◌++◌, true, length, map, Some, slice_get, IsTrue, IfOk, OnOk};
ghost use Rattle.bc_solid.specs.Meshes.{edges, all_edges, joins};
ghost use Rattle.bc_solid.specs.Facets.{facet_of, outlines};
ghost use Rattle.bc_solid.specs.MeshFaults.{IsLess3};
ghost use Rattle.bc_solid.specs.EdgeTables.{edge_of, IsSorted};

use crate::solid::Facet;
use bc_num::{List, Memory, V3};
use std::alloc::Global;

// A directed edge of a face.
#[derive(Clone, Copy, Debug, PartialEq, Eq, Hash)]
pub(crate) struct Edge {
    pub(crate) from: V3,
    pub(crate) to: V3,
}

// Whether a comes before b by x, then y, then z.
fn is_before(a: V3, b: V3) -> bool
    ensures { IsTrue result ↔ IsLess3 a b }
{
    a.x < b.x || a.x == b.x && (a.y < b.y || a.y == b.y && a.z < b.z)
}

impl Edge {
    // The same ends, the lesser first.
    pub(crate) fn sorted(self) -> Edge
        requires { self.from ≢ self.to }
        ensures sorted { IsSorted result }
        ensures ends { joins (edge_of result) (edge_of self) ≡ true }
    {
        if is_before(self.from, self.to) {
            self
        } else {
            Edge {
                from: self.to,
                to: self.from,
            }
        }
    }
}

// The edge from the corner at a place to the next one; behind the last corner comes the first.
pub(crate) fn edge_at(corners: &[V3], place: usize) -> Edge
    requires { place < length corners.now }
    ensures { slice_get (edges corners.now) place ≡ Some (edge_of result) }
{
    let next = if place + 1 < corners.len() {
        place + 1
    } else {
        0
    };
    Edge {
        from: corners[place],
        to: corners[next],
    }
}

// Adds the edges round a face behind the others.
fn add_edges(list: &mut List<Edge>, corners: &[V3]) -> Result<(), Memory>
    ensures { OnOk result (map edge_of list.new ≡ map edge_of list.old ++ edges corners.now) }
{
    for place in 0..corners.len() {
        list.push(edge_at(corners, place))?;
    }
    Ok(())
}

// The edges of all faces, in order.
pub(crate) fn edges_of(alloc: Global, facets: &[Facet]) -> Result<List<Edge>, Memory>
    ensures { IfOk result (λ es. map edge_of es ≡ all_edges (outlines (map facet_of facets.now))) }
{
    let mut list = List::new(alloc);
    for facet in facets {
        add_edges(&mut list, facet.corners.as_slice())?;
    }
    Ok(list)
}
