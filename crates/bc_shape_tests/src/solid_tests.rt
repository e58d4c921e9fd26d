//! What the checks of contours and of meshes take, and the first fault that they tell.
ghost use Rattle.std.specs.Prelude.{◌≡◌, ◌≤◌, ◌^◌, true, length, nat_lt, IfOk};
ghost use Rattle.std.specs.List.{list_all};
ghost use Rattle.bc_solid.specs.Closed.{IsContour};
ghost use Rattle.bc_solid.specs.Contours.{is_drawn};
ghost use Rattle.bc_solid.specs.Meshes.{is_near_place, corner_count};

use bc_num::{List, V2, V3};
use bc_solid::{
    ContourFault, Element, Face, MeshFault, RawContours, RawMesh, check_contours, check_mesh,
};
use std::alloc::Global;
use std::test::Fail;

fn one_contour(alloc: Global, elements: Vec<Element>) -> Result<RawContours, Fail>
    requires closed { IsContour elements.items }
    requires drawn { list_all is_drawn elements.items ≡ true }
    requires few { length elements.items ≤ 2 ^ 20 }
{
    let contours = vec![in alloc; List::from_vec(elements)]?;
    Ok(RawContours {
        contours: List::from_vec(contours),
    })
}

#[test]
fn round_arcs_make_a_profile(rt: HostRuntime) -> Result<(), Fail> {
    let elements = vec![in rt.alloc();
        Element::Arc {
            a: V2 { x: 5, y: 0 },
            b: V2 { x: 0, y: -5 },
            c: V2 { x: 0, y: 0 },
            ccw: true
        },
        Element::Edge {
            a: V2 { x: 0, y: -5 },
            b: V2 { x: 5, y: 0 }
        },
    ]?;
    let last = elements[1];
    let s = check_contours(rt.alloc(), one_contour(rt.alloc(), elements)?)?;
    assert_eq!(rt; s.elements(), 2);
    assert_eq!(rt; s.element(1), last);
    Ok(())
}

#[test]
fn the_first_arc_at_fault_is_told(rt: HostRuntime) -> Result<(), Fail> {
    let skew = vec![in rt.alloc();
        Element::Edge {
            a: V2 { x: 0, y: 2 },
            b: V2 { x: 3, y: 0 }
        },
        Element::Arc {
            a: V2 { x: 3, y: 0 },
            b: V2 { x: 0, y: 2 },
            c: V2 { x: 0, y: 0 },
            ccw: true
        },
    ]?;
    let fault = check_contours(rt.alloc(), one_contour(rt.alloc(), skew)?).err();
    assert_eq!(rt;
        fault,
        Some(ContourFault::SkewArc {
            at: 1,
            start2: 9,
            end2: 4
        })
    );
    let point = vec![in rt.alloc();
        Element::Arc {
            a: V2 { x: 7, y: -7 },
            b: V2 { x: 7, y: -7 },
            c: V2 { x: 7, y: -7 },
            ccw: false
        },
    ]?;
    let fault = check_contours(rt.alloc(), one_contour(rt.alloc(), point)?).err();
    assert_eq!(rt; fault, Some(ContourFault::ZeroRadius { at: 0 }));
    Ok(())
}

fn face(alloc: Global, corners: &[u32]) -> Result<Face, Fail>
    ensures { IfOk result (λ f. f ≡ corners.now) }
{
    let mut face = Face::new(alloc);
    for corner in corners {
        face.push(*corner)?;
    }
    Ok(face)
}

fn mesh(points: Vec<V3>, faces: Vec<Face>) -> RawMesh
    requires near { list_all is_near_place points.items ≡ true }
    requires places { list_all (λ face. list_all (λ i. nat_lt i (length points.items)) face) faces.items ≡ true }
    requires few_points { length points.items ≤ 2 ^ 20 }
    requires few_faces { length faces.items ≤ 2 ^ 20 }
    requires few_corners { corner_count faces.items ≤ 2 ^ 20 }
{
    RawMesh {
        points: List::from_vec(points),
        faces: List::from_vec(faces),
    }
}

// The mesh of these faces over the corners of a tetrahedron, of which the last three are on x + y + z = 2.
fn over_tips(alloc: Global, faces: Vec<Face>) -> Result<RawMesh, Fail>
    requires places { list_all (λ face. list_all (λ i. nat_lt i 4) face) faces.items ≡ true }
    requires few_faces { length faces.items ≤ 2 ^ 20 }
    requires few_corners { corner_count faces.items ≤ 2 ^ 20 }
{
    let points = vec![in alloc;
        V3 { x: 0, y: 0, z: 0 },
        V3 { x: 2, y: 0, z: 0 },
        V3 { x: 0, y: 2, z: 0 },
        V3 { x: 0, y: 0, z: 2 },
    ]?;
    Ok(mesh(points, faces))
}

#[test]
fn a_tetrahedron_is_a_solid(rt: HostRuntime) -> Result<(), Fail> {
    let alloc = rt.alloc();
    let faces = vec![in alloc;
        face(alloc, &[0, 2, 1])?,
        face(alloc, &[0, 1, 3])?,
        face(alloc, &[0, 3, 2])?,
        face(alloc, &[1, 2, 3])?,
    ]?;
    let s = check_mesh(alloc, over_tips(alloc, faces)?)?;
    assert_eq!(rt; s.faces(), 4);
    assert_eq!(rt; s.corners(3), 3);
    assert_eq!(rt; s.corner(3, 1), V3 { x: 0, y: 2, z: 0 });
    let h = s.plane(3);
    assert_eq!(rt; (h.a, h.b, h.c, h.d), (1, 1, 1, 2));
    Ok(())
}

#[test]
fn edges_are_counted_by_the_coordinates_of_their_ends(rt: HostRuntime) -> Result<(), Fail> {
    let alloc = rt.alloc();
    let open = vec![in alloc;
        face(alloc, &[0, 2, 1])?,
        face(alloc, &[0, 1, 3])?,
        face(alloc, &[0, 3, 2])?,
    ]?;
    let fault = check_mesh(alloc, over_tips(alloc, open)?).err();
    assert_eq!(rt;
        fault,
        Some(MeshFault::OddEdge {
            a: V3 { x: 0, y: 2, z: 0 },
            b: V3 { x: 2, y: 0, z: 0 },
            count: 1
        })
    );
    let copies = vec![in alloc;
        V3 { x: 0, y: 0, z: 0 },
        V3 { x: 2, y: 0, z: 0 },
        V3 { x: 0, y: 2, z: 0 },
        V3 { x: 0, y: 0, z: 0 },
        V3 { x: 2, y: 0, z: 0 },
        V3 { x: 0, y: 2, z: 0 },
    ]?;
    let faces = vec![in alloc; face(alloc, &[0, 1, 2])?, face(alloc, &[3, 4, 5])?]?;
    assert_eq!(rt; check_mesh(alloc, mesh(copies, faces))?.faces(), 2);
    Ok(())
}

// The fault of a mesh of a sound triangle and the face with these corners.
fn fault_of(alloc: Global, corners: &[u32]) -> Result<Option<MeshFault>, Fail>
    requires places { list_all (λ i. nat_lt i 7) corners.now ≡ true }
    requires few { length corners.now ≤ 8 }
{
    let points = vec![in alloc;
        V3 { x: 0, y: 0, z: 0 },
        V3 { x: 2, y: 0, z: 0 },
        V3 { x: 2, y: 2, z: 0 },
        V3 { x: 0, y: 2, z: 0 },
        V3 { x: 0, y: 2, z: 1 },
        V3 { x: 4, y: 0, z: 0 },
        V3 { x: 2, y: 0, z: 0 },
    ]?;
    let faces = vec![in alloc; face(alloc, &[0, 1, 2])?, face(alloc, corners)?]?;
    Ok(check_mesh(alloc, mesh(points, faces)).err())
}

#[test]
fn the_first_fault_of_a_face_is_told(rt: HostRuntime) -> Result<(), Fail> {
    let alloc = rt.alloc();
    let twin = |place| Some(MeshFault::TwinCorner { face: 1, place });
    let flat = Some(MeshFault::FlatFace { face: 1 });
    let bent = |place| Some(MeshFault::BentFace { face: 1, place });
    assert_eq!(rt; fault_of(alloc, &[0, 1, 6, 3])?, twin(1));
    assert_eq!(rt; fault_of(alloc, &[0, 1, 2, 0])?, twin(3));
    assert_eq!(rt; fault_of(alloc, &[3])?, twin(0));
    assert_eq!(rt; fault_of(alloc, &[0, 1, 5])?, flat);
    assert_eq!(rt; fault_of(alloc, &[])?, flat);
    assert_eq!(rt; fault_of(alloc, &[0, 1, 2, 4])?, bent(3));
    assert_eq!(rt; fault_of(alloc, &[0, 1, 2, 3, 4])?, bent(4));
    Ok(())
}
