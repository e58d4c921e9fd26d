//! Two boundaries as one: the faces, or elements, of the first and then of the second.
ghost use Rattle.std.specs.Prelude.{◌≡◌, ◌≤◌, ◌+◌, ◌^◌, ◌++◌, map, length, IfOk, OnOk};
ghost use Rattle.bc_solid.specs.Facets.{facet_of, outlines};
ghost use Rattle.bc_solid.specs.Meshes.{corner_count};

use crate::solid::Facet;
use crate::{Element, Profile, Solid};
use bc_num::{List, Memory, V3};
use std::alloc::Global;

// A copy of some corners.
fn copy_corners(alloc: Global, corners: &[V3]) -> Result<List<V3>, Memory>
    ensures { IfOk result (λ cs. cs ≡ corners.now) }
{
    let mut copy = List::new(alloc);
    for corner in corners {
        copy.push(*corner)?;
    }
    Ok(copy)
}

// Puts copies of the faces at the end.
fn add_facets(alloc: Global, all: &mut List<Facet>, facets: &[Facet]) -> Result<(), Memory>
    ensures { OnOk result (map facet_of all.new ≡ map facet_of all.old ++ map facet_of facets.now) }
{
    for facet in facets {
        let corners = copy_corners(alloc, facet.corners.as_slice())?;
        all.push(Facet {
            plane: facet.plane,
            corners,
        })?;
    }
    Ok(())
}

// Puts the elements at the end.
fn add_elements(all: &mut List<Element>, elements: &[Element]) -> Result<(), Memory>
    ensures { OnOk result (all.new ≡ all.old ++ elements.now) }
{
    for element in elements {
        all.push(*element)?;
    }
    Ok(())
}

/// The faces of `a` and then of `b` as one closed mesh. Together they have at most 2^20 faces, and at most 2^20 corners.
/// `Memory` where there is no room. The cost grows with the corners of both.
pub fn join_solids(alloc: Global, a: &Solid, b: &Solid) -> Result<Solid, Memory>
    requires faces { length a.now + length b.now ≤ 2 ^ 20 }
    requires corners { corner_count (outlines a.now) + corner_count (outlines b.now) ≤ 2 ^ 20 }
    ensures { IfOk result (λ s. s ≡ a.now ++ b.now) }
{
    let mut facets = List::new(alloc);
    add_facets(alloc, &mut facets, a.facets.as_slice())?;
    add_facets(alloc, &mut facets, b.facets.as_slice())?;
    Ok(Solid { facets })
}

/// The elements of `a` and then of `b` as closed contours. Together they have at most 2^20 elements. `Memory` where there is
/// no room. The cost grows with the elements of both.
pub fn join_profiles(alloc: Global, a: &Profile, b: &Profile) -> Result<Profile, Memory>
    requires { length a.now + length b.now ≤ 2 ^ 20 }
    ensures { IfOk result (λ s. s ≡ a.now ++ b.now) }
{
    let mut items = List::new(alloc);
    add_elements(&mut items, a.items.as_slice())?;
    add_elements(&mut items, b.items.as_slice())?;
    Ok(Profile { items })
}
