//! The check of a mesh, each part in turn: neighbouring corners differ, each face has a plane, and each edge occurs an
//! even number of times. What is checked becomes a solid, whose promises are in `solid`.
ghost use Rattle.std.specs.Prelude.{◌≡◌, ◌≢◌, ◌≤◌, ◌^◌, true, length, map, nat_lt, All, IfOk, IfErr};
ghost use Rattle.std.specs.List.{list_all};
ghost use Rattle.bc_num.specs.Sizes.{AreCoords3};
ghost use Rattle.bc_solid.specs.declared.mesh_fault.MeshFault.TheVariants.{Memory};
ghost use Rattle.bc_solid.specs.Meshes.{faces_of, corners_of, corner_count, is_near_place};
ghost use Rattle.bc_solid.specs.RawMeshes.{mesh_of};
ghost use Rattle.bc_solid.specs.Facets.{facet_of, outlines, IsFacet, IsClosedMesh};
ghost use Rattle.bc_solid.specs.MeshFaults.{IsFaceFault, IsMeshFault};

use crate::edge::edges_of;
use crate::edge_table::EdgeTable;
use crate::face_plane::face_plane;
use crate::outline::{first_twin, outline};
use crate::solid::Facet;
use crate::{Face, MeshFault, RawMesh, Solid};
use bc_num::{List, V3};
use std::alloc::Global;

// The face with this number in its plane, or its fault.
fn facet(face: u32, corners: List<V3>) -> Result<Facet, MeshFault>
    requires near { All AreCoords3 corners }
    requires few { length corners ≤ 2 ^ 20 }
    ensures corners { IfOk result (λ f. f.corners ≡ corners) }
    ensures sound { IfOk result (λ f. IsFacet (facet_of f)) }
    ensures fault { IfErr result (IsFaceFault face corners) }
{
    if let Some(place) = first_twin(corners.as_slice()) {
        return Err(MeshFault::TwinCorner {
            face,
            place: place as u32,
        });
    }
    let plane = face_plane(face, corners.as_slice())?;
    Ok(Facet { plane, corners })
}

// All faces in their planes, or the first fault of one.
fn facets_of(alloc: Global, points: &[V3], faces: &[Face]) -> Result<List<Facet>, MeshFault>
    requires near { list_all is_near_place points.now ≡ true }
    requires places { list_all (λ face. list_all (λ i. nat_lt i (length points.now)) face) faces.now ≡ true }
    requires few_faces { length faces.now ≤ 2 ^ 20 }
    requires few_corners { corner_count faces.now ≤ 2 ^ 20 }
    ensures corners { IfOk result (λ fs. outlines (map facet_of fs) ≡ map (corners_of points.now) faces.now) }
    ensures sound { IfOk result (λ fs. All IsFacet (map facet_of fs)) }
    ensures fault { IfErr result (λ f. f ≢ Memory → IsMeshFault (map (corners_of points.now) faces.now) f) }
{
    let mut facets = List::new(alloc);
    for face in faces {
        let corners = outline(alloc, points, face)?;
        facets.push(facet(facets.len() as u32, corners)?)?;
    }
    Ok(facets)
}

/// The mesh as a solid, each face in its canonical plane; else its first fault: face by face a corner that is the same as
/// the next one, a face on one line or on no plane, and then an edge that occurs an odd number of times among the edges of
/// all faces. Places are compared by their coordinates. The mesh is dropped. The cost grows with the number of corners of
/// faces.
///
/// # Errors
///
/// `TwinCorner` where a corner has the coordinates of the next one, or the last those of the first; else `FlatFace` where
/// all corners of a face are on one line; else `BentFace` where they are on no plane, with the first corner that is on no
/// plane with those before it. Where no face is at fault `OddEdge`, the first edge in the order of the faces whose ends
/// occur an odd number of times, with that number. `Memory` where there is none.
pub fn check_mesh(alloc: Global, raw: RawMesh) -> Result<Solid, MeshFault>
    ensures faces { IfOk result (λ s. outlines s ≡ faces_of (mesh_of raw)) }
    ensures closed { IfOk result (λ _. IsClosedMesh (faces_of (mesh_of raw))) }
    ensures fault { IfErr result (λ f. f ≢ Memory → IsMeshFault (faces_of (mesh_of raw)) f) }
    ensures open { IfErr result (λ f. f ≢ Memory → IsClosedMesh (faces_of (mesh_of raw)) → ⊥) }
{
    let facets = facets_of(alloc, raw.points.as_slice(), raw.faces.as_slice())?;
    let edges = edges_of(alloc, facets.as_slice())?;
    let table = EdgeTable::of_edges(alloc, edges.as_slice())?;
    match table.first_odd() {
        Some((edge, count)) => Err(MeshFault::OddEdge {
            a: edge.from,
            b: edge.to,
            count,
        }),
        None => Ok(Solid { facets }),
    }
}
