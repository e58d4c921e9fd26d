//! The table of the half-spaces of a mesh: distinct planes with their origins, asked for by number or as a list.
//! `gather_planes` fills it, and `specs/Planes` says what it holds.
ghost use Rattle.std.specs.Prelude.{◌≡◌, ◌<◌, [], length, slice_get, Some, IfOk, OnOk, map};
ghost use Rattle.std.specs.List.{list_any};
ghost use Rattle.bc_natural.specs.Noted.{with_new};
ghost use Rattle.bc_natural.specs.Planes.{planes_of, is_same_plane};

use bc_num::{List, Memory, V3};
use bc_space::Plane3;
use indexmap::IndexMap;
use std::alloc::Global;
use std::marker::Model;

/// Distinct planes with their origins, in the order in which they were seen first.
#[derive(Drop)]
pub struct PlaneTable {
    planes: IndexMap<Plane3, V3>,
}

impl Model for PlaneTable {
    ghost use Rattle.bc_natural.specs.Planes.{Planes};

    ghost Value = { Planes };

    ghost view = { λ t. t.planes.entries };
}

impl PlaneTable {
    // A table of nothing, which takes no memory.
    pub(crate) fn new(alloc: Global) -> PlaneTable
        ensures { result ≡ [] }
    {
        PlaneTable {
            planes: IndexMap::new(alloc),
        }
    }

    // Whether the plane is there.
    fn has_plane(&self, plane: Plane3) -> bool
        ensures { result ≡ list_any (λ e. is_same_plane plane e.0) self.now }
    {
        self.planes.contains_key(&plane)
    }

    // Puts a plane with its origin at the end, unless the plane is there.
    pub(crate) fn add_plane(&mut self, plane: Plane3, origin: V3) -> Result<(), Memory>
        ensures { OnOk result (self.new ≡ with_new (λ g h. is_same_plane g.0 h.0) self.old (plane, origin)) }
    {
        if !self.has_plane(plane) {
            self.planes.insert(plane, origin)?;
        }
        Ok(())
    }

    /// How many planes there are.
    pub fn len(&self) -> usize
        ensures { result ≡ length self.now }
    {
        self.planes.len()
    }

    /// The plane with this number, counted from 0, and its origin.
    pub fn entry(&self, i: usize) -> (Plane3, V3)
        requires { i < length self.now }
        ensures { slice_get self.now i ≡ Some result }
    {
        let (plane, origin) = self.planes.get_index(i).unwrap();
        (*plane, *origin)
    }

    /// The plane with this number, counted from 0, which is below `len`.
    pub fn plane(&self, i: usize) -> Plane3
        requires { i < length self.now }
        ensures { slice_get (planes_of self.now) i ≡ Some result }
    {
        let (plane, _) = self.entry(i);
        plane
    }

    /// The origin of the plane with this number: the first corner of the first face on the plane.
    pub fn origin(&self, i: usize) -> V3
        requires { i < length self.now }
        ensures { slice_get (map (λ e. e.1) self.now) i ≡ Some result }
    {
        let (_, origin) = self.entry(i);
        origin
    }

    /// The planes in order. `Memory` where there is no room for them; the cost grows with their number.
    pub fn plane_list(&self, alloc: Global) -> Result<List<Plane3>, Memory>
        ensures { IfOk result (λ hs. hs ≡ planes_of self.now) }
    {
        let mut list = List::new(alloc);
        for i in 0..self.len() {
            list.push(self.plane(i))?;
        }
        Ok(list)
    }
}
