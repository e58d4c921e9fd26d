//! Which side of which plane a slab is.
ghost use Rattle.std.specs.Prelude.{◌≡◌, ◌<◌, ◌^◌, length, IfSome, neg_ℤ};
ghost use Rattle.bc_algebra.specs.Within.{IsWithin};
ghost use Rattle.bc_num.specs.Directions3.{opposite3};
ghost use Rattle.bc_tree.specs.Leaves.{IsFrame3};
ghost use Rattle.bc_audit.specs.Told.{offset as offset_of, is_plane as are_plane, is_facing as faces, is_turned as turns, literal_from};

use bc_num::V3;
use bc_space::Plane3;
use bc_tree::Frame3;

/// A side of one of some planes: Above it where `above` is true, else Below. Planes count from 0.
#[derive(Clone, Copy)]
pub(crate) struct Literal {
    pub(crate) plane: usize,
    pub(crate) above: bool,
}

// How far the slab's origin is along its normal.
fn offset(f: &Frame3) -> i64
    requires { IsFrame3 f.now }
    ensures offset { result ≡ offset_of f.now }
    ensures near { IsWithin (2 ^ 40) result }
{
    f.n.x * f.o.x + f.n.y * f.o.y + f.n.z * f.o.z
}

// Whether the plane has this normal and this offset.
fn is_plane(h: &Plane3, n: &V3, d: &i64) -> bool
    ensures { result ≡ are_plane h.now n.now.x n.now.y n.now.z d.now }
{
    h.a == n.x && (h.b == n.y && (h.c == n.z && h.d == *d))
}

// Whether the plane is the slab's, with the slab Above it.
fn is_facing(f: &Frame3, h: &Plane3) -> bool
    requires { IsFrame3 f.now }
    ensures { result ≡ faces f.now h.now }
{
    is_plane(h, &f.n, &offset(f))
}

// The vector that points the other way.
fn opposite(n: &V3) -> V3
    requires x_near { IsWithin 8388607 n.now.x }
    requires y_near { IsWithin 8388607 n.now.y }
    requires z_near { IsWithin 8388607 n.now.z }
    ensures { result ≡ opposite3 n.now }
{
    V3 {
        x: -n.x,
        y: -n.y,
        z: -n.z,
    }
}

fn opposite_of(z: &i64) -> i64
    requires { IsWithin (2 ^ 40) z.now }
    ensures value { result ≡ neg_ℤ z.now }
    ensures near { IsWithin (2 ^ 40) result }
{
    -*z
}

// Whether the plane is the slab's, with the slab Below it.
fn is_turned(f: &Frame3, h: &Plane3) -> bool
    requires { IsFrame3 f.now }
    ensures { result ≡ turns f.now h.now }
{
    is_plane(h, &opposite(&f.n), &opposite_of(&offset(f)))
}

/// The side of its plane that the slab is, where its plane is among these.
pub(crate) fn literal_of(f: &Frame3, planes: &[Plane3]) -> Option<Literal>
    requires { IsFrame3 f.now }
    ensures literal { result ≡ literal_from f.now 0 planes.now }
    ensures within { IfSome result (λ l. l.plane < length planes.now) }
{
    for (i, h) in planes.iter().enumerate() {
        if is_facing(f, h) {
            return Some(Literal {
                plane: i,
                above: true,
            });
        }
        if is_turned(f, h) {
            return Some(Literal {
                plane: i,
                above: false,
            });
        }
    }
    None
}
