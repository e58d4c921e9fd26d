//! A closed mesh that is checked: how many faces it has, and the corners and the plane of each. `mesh_check` makes one
//! of a mesh as it is read, and `join` one of two.
ghost use Rattle.std.specs.Prelude.{◌≡◌, ◌≤◌, ◌<◌, ◌^◌, length, slice_get, Some};
ghost use Rattle.bc_num.specs.Sizes.{AreCoords3};
ghost use Rattle.bc_space.specs.Planes.{IsSizedPlane};
ghost use Rattle.bc_solid.specs.Facets.{Facet as AFacet, IsSolid};

use bc_num::{List, V3};
use bc_space::Plane3;
use std::marker::Model;

/// A face with the plane that it lies on.
#[derive(Drop)]
pub(crate) struct Facet {
    pub(crate) plane: Plane3,
    pub(crate) corners: List<V3>,
}

/// A closed mesh: no two neighbouring corners of a face are the same, the corners of each face are on one plane and not all
/// on one line, and each pair of ends, compared by coordinates, occurs an even number of times among the edges of all
/// faces. All coordinates are from -1023 to 1023, and the faces have at most 2^20 corners in all. Faces and the corners of
/// a face are numbered from 0.
#[derive(Drop)]
pub struct Solid {
    pub(crate) facets: List<Facet>,
}

impl Model for Solid {
    ghost use Rattle.std.specs.Prelude.{List, map};
    ghost use Rattle.bc_solid.specs.Facets.{Facet, IsSolid, facet_of};

    ghost Value = { List Facet };

    ghost view = { λ s. map facet_of s.facets };

    ghost invariant = { λ s. IsSolid (map facet_of s.facets) };
}

impl Solid {
    /// What the checks say of the faces. It does nothing: its promise is the statement.
    pub fn law(&self)
        ensures { IsSolid self.now }
    {
        let _facets = &self.facets;
    }

    /// How many faces there are.
    pub fn faces(&self) -> usize
        ensures count { result ≡ length self.now }
        ensures few { result ≤ 2 ^ 20 }
    {
        self.facets.len()
    }

    /// How many corners face `f` has.
    pub fn corners(&self, f: usize) -> usize
        requires { f < length self.now }
        ensures { (facet : AFacet) → slice_get self.now f ≡ Some facet → result ≡ length facet.corners }
    {
        self.facets.get(f).corners.len()
    }

    /// Corner `i` of face `f`.
    pub fn corner(&self, f: usize, i: usize) -> V3
        requires face { f < length self.now }
        requires place { (facet : AFacet) → slice_get self.now f ≡ Some facet → i < length facet.corners }
        ensures at { (facet : AFacet) → slice_get self.now f ≡ Some facet → slice_get facet.corners i ≡ Some result }
        ensures near { AreCoords3 result }
    {
        self.law();
        *self.facets.get(f).corners.get(i)
    }

    /// The plane of face `f`: the canonical one of three of its corners that are not on one line.
    pub fn plane(&self, f: usize) -> Plane3
        requires { f < length self.now }
        ensures at { (facet : AFacet) → slice_get self.now f ≡ Some facet → result ≡ facet.plane }
        ensures sized { IsSizedPlane result }
    {
        self.law();
        self.facets.get(f).plane
    }
}
