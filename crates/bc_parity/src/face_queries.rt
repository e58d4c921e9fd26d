//! Whether a point of space has an odd number of faces of a closed mesh below it, and whether it is on the plane of
//! one. The crossing of one face is in `face_crossings`; the same of contours is in `queries`.
ghost use Rattle.std.specs.Prelude.{◌≡◌, ◌↔◌, IsTrue, Any, false, pos};
ghost use Rattle.bc_num.specs.Sizes.{IsLargePoint3};
ghost use Rattle.bc_space.specs.Planes.{plane_value};
ghost use Rattle.bc_solid.specs.Facets.{IsOff3};
ghost use Rattle.bc_parity.specs.Faces.{is_odd3_at};

use crate::face_crossings::{crosses_face, is_on_plane};
use crate::order::exactly_one;
use bc_num::P3;
use bc_solid::Solid;

/// Whether the ray straight down from `p` crosses an odd number of faces. The ray is moved by an infinitesimal step to the
/// right and by an infinitely smaller one in `y`, so the answer is also told at points above an edge; a vertical face is
/// never crossed. The coordinates of `p` are below 2^98 in size, its `w` is below 2^86.
pub fn odd3(s: &Solid, p: &P3) -> bool
    requires { IsLargePoint3 p.now }
    ensures { result ≡ is_odd3_at s.now p.now }
{
    let mut odd = false;
    for f in 0..s.faces() {
        odd = exactly_one(odd, crosses_face(s, f, p));
    }
    odd
}

/// Whether `p` is on the plane of a face. The coordinates of `p` are below 2^98 in size, its `w` is below 2^86.
pub fn on_edge3(s: &Solid, p: &P3) -> bool
    requires { IsLargePoint3 p.now }
    ensures on { IsTrue result ↔ Any (λ f. plane_value f.plane p.now ≡ pos 0) s.now }
    ensures off { (result ≡ false) ↔ IsOff3 s.now p.now }
{
    for f in 0..s.faces() {
        if is_on_plane(&s.plane(f), p) {
            return true;
        }
    }
    false
}
