//! The plane of a face, from the coordinates of its corners: that of its first two and the first one off their line.
//! All corners are then held against it, and the first that is off it is a fault.
ghost use Rattle.std.specs.Prelude.{◌≡◌, ◌≤◌, ◌^◌, length, All, IfOk, IfErr, IfSome, IsNone};
ghost use Rattle.std.specs.Ordering.{int_eq};
ghost use Rattle.bc_num.specs.Sizes.{AreCoords3};
ghost use Rattle.bc_space.specs.Planes.{IsSizedPlane};
ghost use Rattle.bc_space.specs.PlanesThrough.{AreCollinear, along_normal3};
ghost use Rattle.bc_solid.specs.Facets.{IsOnPlane};
ghost use Rattle.bc_solid.specs.FacePlanes.{IsFirstPlane, IsFirstOff, IsPlaneOfCorners};
ghost use Rattle.bc_solid.specs.MeshFaults.{HasNoTwins, IsFaceFault};

use crate::MeshFault;
use bc_num::V3;
use bc_space::{Plane3, plane_through};

// The plane through two places and the first corner that is not on their line.
fn first_plane(a: V3, b: V3, corners: &[V3]) -> Option<Plane3>
    requires a_near { AreCoords3 a }
    requires b_near { AreCoords3 b }
    requires near { All AreCoords3 corners.now }
    ensures none { IsNone result → All (AreCollinear a b) corners.now }
    ensures plane { IfSome result (IsFirstPlane a b corners.now) }
    ensures sized { IfSome result IsSizedPlane }
{
    for corner in corners {
        if let Some(plane) = plane_through(a, b, *corner) {
            return Some(plane);
        }
    }
    None
}

// How far a place is along the normal of a plane, times the length of the normal.
fn along_normal(plane: &Plane3, corner: V3) -> i64
    requires sized { IsSizedPlane plane.now }
    requires near { AreCoords3 corner }
    ensures { result ≡ along_normal3 plane.now corner }
{
    plane.a * corner.x + plane.b * corner.y + plane.c * corner.z
}

fn is_on(plane: &Plane3, corner: V3) -> bool
    requires sized { IsSizedPlane plane.now }
    requires near { AreCoords3 corner }
    ensures { result ≡ int_eq plane.now.d (along_normal3 plane.now corner) }
{
    plane.d == along_normal(plane, corner)
}

// The first place whose corner is not on the plane.
fn first_off(plane: &Plane3, corners: &[V3]) -> Option<usize>
    requires sized { IsSizedPlane plane.now }
    requires near { All AreCoords3 corners.now }
    ensures none { IsNone result → All (IsOnPlane plane.now) corners.now }
    ensures off { IfSome result (IsFirstOff plane.now corners.now) }
{
    for (place, corner) in corners.iter().enumerate() {
        if !is_on(plane, *corner) {
            return Some(place);
        }
    }
    None
}

// The plane of the face with this number, whose neighbouring corners differ, or its fault.
pub(crate) fn face_plane(face: u32, corners: &[V3]) -> Result<Plane3, MeshFault>
    requires near { All AreCoords3 corners.now }
    requires apart { HasNoTwins corners.now }
    requires few { length corners.now ≤ 2 ^ 20 }
    ensures plane { IfOk result (IsPlaneOfCorners corners.now) }
    ensures fault { IfErr result (IsFaceFault face corners.now) }
{
    if corners.len() < 2 {
        return Err(MeshFault::FlatFace { face });
    }
    match first_plane(corners[0], corners[1], corners) {
        None => Err(MeshFault::FlatFace { face }),
        Some(plane) => match first_off(&plane, corners) {
            None => Ok(plane),
            Some(place) => Err(MeshFault::BentFace {
                face,
                place: place as u32,
            }),
        },
    }
}
