//! A mesh as it is read: places, and faces by the numbers of these, with all numbers in range. `mesh_check` makes a
//! solid of it.
ghost use Rattle.std.specs.Prelude.{◌≡◌, ◌≤◌, ◌^◌, true, length, nat_lt};
ghost use Rattle.std.specs.List.{list_all};
ghost use Rattle.bc_solid.specs.Meshes.{is_near_place, corner_count};

use crate::Face;
use bc_num::{List, V3};

/// A mesh as it is read, not checked yet. All coordinates are within 1023, and each corner of a face is the number of a
/// place, counted from 0. There are at most 2^20 places, at most 2^20 faces, and at most 2^20 corners of faces in all.
#[derive(Drop)]
pub struct RawMesh {
    pub points: List<V3>,
    pub faces: List<Face>,
    pub ghost are_near: { list_all is_near_place points ≡ true },
    pub ghost are_places: { list_all (λ face. list_all (λ i. nat_lt i (length points)) face) faces ≡ true },
    pub ghost few_points: { length points ≤ 2 ^ 20 },
    pub ghost few_faces: { length faces ≤ 2 ^ 20 },
    pub ghost few_corners: { corner_count faces ≤ 2 ^ 20 },
}
