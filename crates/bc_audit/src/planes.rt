//! The planes of a mesh's faces and of a tree's slabs.
ghost use Rattle.std.specs.Prelude.{◌≡◌, ◌^◌, ◌<◌, ◌+◌, map, unsigned_abs, OnOk, IfOk, All};
ghost use Rattle.bc_algebra.specs.Within.{IsWithin};
ghost use Rattle.bc_num.specs.Sizes.{AreCoords3};
ghost use Rattle.bc_space.specs.Planes.{IsSizedPlane};
ghost use Rattle.bc_space.specs.PlanesThrough.{along_normal3};
ghost use Rattle.bc_natural.specs.Distinct.{distinct};
ghost use Rattle.bc_natural.specs.Planes.{is_same_plane};
ghost use Rattle.bc_tree.specs.Shape.{shape, shapes, AllLeaves, EachLeaf};
ghost use Rattle.bc_tree.specs.Leaves.{IsLeaf, IsFrame3};
ghost use Rattle.bc_audit.specs.SlabPlanes.{IsSlabPlane, leaf_slabs, slabs, all_slabs, ArePlanesWith, HasAdded};

use crate::plane_set::PlaneSet;
use bc_num::{Memory, V3, primitive3};
use bc_solid::Solid;
use bc_space::Plane3;
use bc_tree::{Frame3, Leaf, Tree};
use std::alloc::Global;

// The plane through a place with this normal.
fn plane_along(u: V3, a: V3) -> Plane3
    requires x_near { IsWithin 8388607 u.x }
    requires y_near { IsWithin 8388607 u.y }
    requires z_near { IsWithin 8388607 u.z }
    requires some { 0 < unsigned_abs u.x + unsigned_abs u.y + unsigned_abs u.z }
    requires a_near { AreCoords3 a }
    ensures a_is { result.a ≡ u.x }
    ensures b_is { result.b ≡ u.y }
    ensures c_is { result.c ≡ u.z }
    ensures d_is { result.d ≡ along_normal3 result a }
    ensures sized { IsSizedPlane result }
{
    let d = u.x * a.x + u.y * a.y + u.z * a.z;
    Plane3 {
        a: u.x,
        b: u.y,
        c: u.z,
        d,
    }
}

// The canonical plane of the slab.
fn slab_plane(f: &Frame3) -> Plane3
    requires { IsFrame3 f.now }
    ensures plane { IsSlabPlane f.now result }
    ensures sized { IsSizedPlane result }
{
    plane_along(primitive3(f.n).unwrap(), f.o)
}

fn add_leaf_plane(leaf: &Leaf, planes: &mut PlaneSet) -> Result<(), Memory>
    requires { IsLeaf leaf.now }
    ensures { OnOk result (HasAdded (leaf_slabs leaf.now) planes.old planes.new) }
{
    match leaf {
        Leaf::Slab(f) => planes.add(slab_plane(f)),
        Leaf::Strip(_) | Leaf::Disc(_) | Leaf::Block(_) | Leaf::Tile(_) => Ok(()),
    }
}

// Adds the planes of the slabs that stand in the tree, each unless it is there.
#[cycle(slabs)]
fn add_slab_planes(t: &Tree, planes: &mut PlaneSet) -> Result<(), Memory>
    requires { AllLeaves IsLeaf (shape t.now) }
    ensures { OnOk result (HasAdded (slabs (shape t.now)) planes.old planes.new) }
{
    match t {
        Tree::Leaf(leaf) => add_leaf_plane(leaf, planes),
        Tree::Union(kids) => add_all_slab_planes(kids.as_slice(), planes),
        Tree::Meet(kids) => add_all_slab_planes(kids.as_slice(), planes),
        Tree::Cut(first, kids) => {
            add_slab_planes(first.get(), planes)?;
            add_all_slab_planes(kids.as_slice(), planes)
        }
    }
}

#[cycle(slabs)]
fn add_all_slab_planes(kids: &[Tree], planes: &mut PlaneSet) -> Result<(), Memory>
    requires { EachLeaf IsLeaf (shapes kids.now) }
    ensures { OnOk result (HasAdded (all_slabs (shapes kids.now)) planes.old planes.new) }
{
    for kid in kids {
        add_slab_planes(kid, planes)?;
    }
    Ok(())
}

// The planes of the faces, each once.
fn face_planes(alloc: Global, s: &Solid) -> Result<PlaneSet, Memory>
    ensures { IfOk result (λ planes. planes ≡ distinct is_same_plane (map (λ f. f.plane) s.now)) }
{
    let mut planes = PlaneSet::new(alloc);
    for f in 0..s.faces() {
        planes.add(s.plane(f))?;
    }
    Ok(planes)
}

/// The planes of the faces and then of the slabs, each once.
pub(crate) fn all_planes(alloc: Global, s: &Solid, t: &Tree) -> Result<PlaneSet, Memory>
    requires { AllLeaves IsLeaf (shape t.now) }
    ensures planes { IfOk result (ArePlanesWith s.now (shape t.now)) }
    ensures sized { IfOk result (All IsSizedPlane) }
{
    s.law();
    let mut planes = face_planes(alloc, s)?;
    add_slab_planes(t, &mut planes)?;
    Ok(planes)
}
