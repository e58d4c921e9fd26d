//! The first corner of a mesh's face. `gather_planes` takes it as origin of the face's plane, and `bounds3` begins the
//! face's spans with it.
ghost use Rattle.std.specs.Prelude.{◌≡◌, ◌<◌, length, slice_get, Some};
ghost use Rattle.bc_num.specs.Sizes.{AreCoords3};
ghost use Rattle.bc_solid.specs.Facets.{Facet};

use bc_num::V3;
use bc_solid::Solid;

// The first corner of face f: each face has corners.
pub(crate) fn first_corner(s: &Solid, f: usize) -> V3
    requires { f < length s.now }
    ensures corner { (facet : Facet) → slice_get s.now f ≡ Some facet → slice_get facet.corners 0 ≡ Some result }
    ensures near { AreCoords3 result }
{
    s.law();
    s.corner(f, 0)
}
