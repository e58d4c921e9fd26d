//! The leaf that the numbers of a form say, or none. The numbers of a disc, block or tile are held against their
//! ranges. A slab or strip is found from some of its numbers, and all of them are then compared with those that the
//! leaf has; this is so for the short form of an axis leaf too.
ghost use Rattle.std.specs.Prelude.{◌≡◌, ◌↔◌, [], ◌∷◌, pos, ◌+ℤ◌, ◌<ℤ◌, IsSome, IfSome};
ghost use Rattle.bc_tree.specs.Decided.{is_solid_leaf as solid_leaf};
ghost use Rattle.bc_tree.specs.declared.tree.Leaf.TheVariants as leaves;
ghost use Rattle.bc_tree.specs.Leaves.{IsFrame3, IsFrame2};
ghost use Rattle.bc_read.specs.Leaves.{LongTells, ShortTells, leaf_of as the_leaf, numbers_of, short_numbers, component_of as component, origin_of as origin, direction_of as direction, is_near as near, IsSideFrom};
ghost use Rattle.bc_tree.specs.Axis.{IsAxis3, IsAxis2};
ghost use Rattle.bc_algebra.specs.Within.{IsWithin};
ghost use Rattle.bc_read.specs.declared.part.Form.TheVariants as forms;

use crate::part::Form;
use bc_num::{Box2, Box3, Disc2, V2, V3};
use bc_tree::{Frame2, Frame3, Leaf};

/// Whether a leaf is of space.
pub fn is_solid_leaf(leaf: &Leaf) -> bool
    ensures { result ≡ solid_leaf leaf.now }
{
    match leaf {
        Leaf::Slab(_) | Leaf::Block(_) => true,
        Leaf::Strip(_) | Leaf::Disc(_) | Leaf::Tile(_) => false,
    }
}

fn is_near(value: i64, most: u64) -> bool
    ensures { result ≡ near most value }
{
    value.unsigned_abs() <= most
}

// The other end of a side of a block or tile.
fn far_end(from: i64, side: i64) -> Option<i64>
    ensures some { IsSome result ↔ IsSideFrom from side }
    ensures value { IfSome result (λ e. e ≡ from +ℤ side) }
    ensures beyond { IfSome result (λ e. from <ℤ e) }
{
    if is_near(from, 4096) && side >= 1 && side <= 8191 {
        Some(from + side)
    } else {
        None
    }
}

fn slab_numbers(f: &Frame3) -> [i64; 22]
    requires { IsFrame3 f.now }
    ensures { result ≡ numbers_of (leaves.Slab f.now) }
{
    let u = f.u();
    let v = f.v();
    let n = f.n;
    let o = f.o;
    [
        u.x, v.x, n.x, o.x, u.y, v.y, n.y, o.y, u.z, v.z, n.z, o.z, 0, 0, 0, 1, -8192, -8192, 0,
        16384, 16384, 8192,
    ]
}

fn strip_numbers(f: &Frame2) -> [i64; 21]
    requires { IsFrame2 f.now }
    ensures { result ≡ numbers_of (leaves.Strip f.now) }
{
    let n = f.normal();
    let u = f.u;
    let o = f.o;
    [
        u.x, n.x, 0, o.x, u.y, n.y, 0, o.y, 0, 0, 1, 0, 0, 0, 0, 1, -8192, 0, 0, 16384, 8192,
    ]
}

fn slab(numbers: &[i64]) -> Option<Leaf>
    ensures { LongTells result forms.Slab numbers.now }
{
    let [_, _, nx, ox, _, _, ny, oy, _, _, nz, oz, ..] = numbers else {
        return None;
    };
    let frame = Frame3::new(
        V3 {
            x: *ox,
            y: *oy,
            z: *oz,
        },
        V3 {
            x: *nx,
            y: *ny,
            z: *nz,
        },
    )?;
    if numbers == slab_numbers(&frame).as_slice() {
        Some(Leaf::Slab(frame))
    } else {
        None
    }
}

fn strip(numbers: &[i64]) -> Option<Leaf>
    ensures { LongTells result forms.Strip numbers.now }
{
    let [ux, _, _, ox, uy, _, _, oy, ..] = numbers else {
        return None;
    };
    let frame = Frame2::new(V2 { x: *ox, y: *oy }, V2 { x: *ux, y: *uy })?;
    if numbers == strip_numbers(&frame).as_slice() {
        Some(Leaf::Strip(frame))
    } else {
        None
    }
}

fn disc(numbers: &[i64]) -> Option<Leaf>
    ensures { LongTells result forms.Disc numbers.now }
{
    let [x, y, z, r2] = numbers else {
        return None;
    };
    if is_near(*x, 1023) && is_near(*y, 1023) && *z == 0 && *r2 >= 1 && *r2 <= 8_372_232 {
        Some(Leaf::Disc(Disc2 {
            c: V2 { x: *x, y: *y },
            r2: *r2,
        }))
    } else {
        None
    }
}

fn block_of(x: i64, y: i64, z: i64, a: i64, b: i64, c: i64) -> Option<Leaf>
    ensures { LongTells result forms.Block (x ∷ y ∷ z ∷ a ∷ b ∷ c ∷ []) }
{
    let x1 = far_end(x, a)?;
    let y1 = far_end(y, b)?;
    let z1 = far_end(z, c)?;
    Some(Leaf::Block(Box3 {
        x0: x,
        y0: y,
        z0: z,
        x1,
        y1,
        z1,
    }))
}

fn block(numbers: &[i64]) -> Option<Leaf>
    ensures { LongTells result forms.Block numbers.now }
{
    match numbers {
        [x, y, z, a, b, c] => block_of(*x, *y, *z, *a, *b, *c),
        _ => None,
    }
}

fn tile_of(x: i64, y: i64, z: i64, a: i64, b: i64) -> Option<Leaf>
    ensures { LongTells result forms.Tile (x ∷ y ∷ z ∷ a ∷ b ∷ []) }
{
    let x1 = far_end(x, a)?;
    let y1 = far_end(y, b)?;
    if z == 0 {
        Some(Leaf::Tile(Box2 {
            x0: x,
            y0: y,
            x1,
            y1,
        }))
    } else {
        None
    }
}

fn tile(numbers: &[i64]) -> Option<Leaf>
    ensures { LongTells result forms.Tile numbers.now }
{
    match numbers {
        [x, y, z, a, b] => tile_of(*x, *y, *z, *a, *b),
        _ => None,
    }
}

// The only component that a normal can have along an axis, for the corner and the side of a short form there.
fn component_of(x: i64, a: i64) -> i64
    ensures value { result ≡ component x a }
    ensures small { IsWithin 1 result }
{
    if a == 16384 {
        0
    } else if is_near(x, 1023) {
        1
    } else {
        -1
    }
}

// The only number that an origin can have there, for the corner and that component.
fn origin_of(x: i64, n: i64) -> i64
    ensures { result ≡ origin x n }
{
    if n == 1 || x > 0 { x } else { x + 8192 }
}

// The numbers of an axis slab's short form.
fn box3_numbers(f: &Frame3) -> [i64; 6]
    requires frame { IsFrame3 f.now }
    requires axis { IsAxis3 f.now.n }
    ensures { result ≡ short_numbers (leaves.Slab f.now) }
{
    let corner = f.least_corner();
    let sides = f.sides();
    [corner.x, corner.y, corner.z, sides.x, sides.y, sides.z]
}

// The numbers of an axis strip's short form.
fn box2_numbers(f: &Frame2) -> [i64; 5]
    requires frame { IsFrame2 f.now }
    requires axis { IsAxis2 f.now.u }
    ensures { result ≡ short_numbers (leaves.Strip f.now) }
{
    let corner = f.least_corner();
    let sides = f.sides();
    [corner.x, corner.y, 0, sides.x, sides.y]
}

// The axis slab of which this is the short form.
fn axis_slab(numbers: &[i64]) -> Option<Leaf>
    ensures { ShortTells result forms.Block numbers.now }
{
    let [x, y, z, a, b, c] = numbers else {
        return None;
    };
    let n = V3 {
        x: component_of(*x, *a),
        y: component_of(*y, *b),
        z: component_of(*z, *c),
    };
    let o = V3 {
        x: origin_of(*x, n.x),
        y: origin_of(*y, n.y),
        z: origin_of(*z, n.z),
    };
    let frame = Frame3::new(o, n)?;
    if !frame.is_axis() {
        return None;
    }
    if numbers == box3_numbers(&frame).as_slice() {
        Some(Leaf::Slab(frame))
    } else {
        None
    }
}

// The direction of this normal.
fn direction_of(n: V2) -> V2
    requires { IsWithin 1 n.x }
    ensures { result ≡ direction n }
{
    V2 { x: n.y, y: -n.x }
}

// The axis strip of which this is the short form.
fn axis_strip(numbers: &[i64]) -> Option<Leaf>
    ensures { ShortTells result forms.Tile numbers.now }
{
    let [x, y, _, a, b] = numbers else {
        return None;
    };
    let n = V2 {
        x: component_of(*x, *a),
        y: component_of(*y, *b),
    };
    let o = V2 {
        x: origin_of(*x, n.x),
        y: origin_of(*y, n.y),
    };
    let frame = Frame2::new(o, direction_of(n))?;
    if !frame.is_axis() {
        return None;
    }
    if numbers == box2_numbers(&frame).as_slice() {
        Some(Leaf::Strip(frame))
    } else {
        None
    }
}

/// The leaf that the numbers say in this form, in the long spelling or in the short one of an axis leaf; `None` exactly where
/// they say none.
pub fn leaf_of(form: Form, numbers: &[i64]) -> Option<Leaf>
    ensures { result ≡ the_leaf form numbers.now }
{
    match form {
        Form::Slab => slab(numbers),
        Form::Strip => strip(numbers),
        Form::Disc => disc(numbers),
        Form::Block => block(numbers).or(axis_slab(numbers)),
        Form::Tile => tile(numbers).or(axis_strip(numbers)),
    }
}
