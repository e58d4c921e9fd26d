//! Planes, each once, in the order in which they came. `planes` fills the set from the faces of a mesh and the slabs of
//! a tree.
ghost use Rattle.std.specs.Prelude.{◌≡◌, ◌<◌, ◌^◌, [], length, OnOk};
ghost use Rattle.bc_natural.specs.Noted.{with_new};
ghost use Rattle.bc_natural.specs.Planes.{is_same_plane};

use bc_num::Memory;
use bc_space::Plane3;
use indexmap::IndexSet;
use std::alloc::Global;
use std::marker::Model;

/// Distinct planes in the order in which they were seen first.
#[derive(Drop)]
pub(crate) struct PlaneSet {
    planes: IndexSet<Plane3>,
}

impl Model for PlaneSet {
    ghost use Rattle.std.specs.Prelude.{List};
    ghost use Rattle.bc_space.specs.declared.plane3.Plane3.{Plane3};

    ghost Value = { List Plane3 };

    ghost view = { λ s. s.planes.keys };
}

impl PlaneSet {
    /// A set of nothing, which takes no memory.
    pub(crate) fn new(alloc: Global) -> PlaneSet
        ensures { result ≡ [] }
    {
        PlaneSet {
            planes: IndexSet::new(alloc),
        }
    }

    /// Puts a plane at the end, unless it is there.
    pub(crate) fn add(&mut self, plane: Plane3) -> Result<(), Memory>
        ensures { OnOk result (self.new ≡ with_new is_same_plane self.old plane) }
    {
        self.planes.insert(plane)?;
        Ok(())
    }

    /// The planes in order.
    pub(crate) fn as_slice(&self) -> &[Plane3]
        ensures planes { result.now ≡ self.now }
        ensures small { length result.now < 2 ^ 63 }
    {
        let _count = self.planes.len();
        self.planes.as_slice()
    }
}
