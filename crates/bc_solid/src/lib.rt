//! Boundaries as they are read and checked: the elements of plane contours, contours as they are read, and closed
//! contours; meshes as they are read, and closed meshes with the planes of their faces.
#![tactic(auto)]

mod contour_check;
mod contour_fault;
mod edge;
mod edge_table;
mod element;
mod face;
mod face_plane;
mod join;
mod mesh_check;
mod mesh_fault;
mod outline;
mod profile;
mod raw_contours;
mod raw_mesh;
mod solid;
mod squares;

pub use contour_check::check_contours;
pub use contour_fault::ContourFault;
pub use element::Element;
pub use face::Face;
pub use join::{join_profiles, join_solids};
pub use mesh_check::check_mesh;
pub use mesh_fault::MeshFault;
pub use profile::Profile;
pub use raw_contours::RawContours;
pub use raw_mesh::RawMesh;
pub use solid::Solid;
pub use squares::square_of;
