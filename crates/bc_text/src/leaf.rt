//! The lines of leaves, without the indent and the `;`: an axis leaf in its short form.
ghost use Rattle.std.specs.Prelude.{◌≡◌, ◌++◌, pos};
ghost use Rattle.bc_tree.specs.declared.tree.Leaf.TheVariants as leaves;
ghost use Rattle.bc_tree.specs.Leaves.{IsLeaf, IsFrame3, IsFrame2, IsBlock, IsTile, u_of, v_of, normal_of};
ghost use Rattle.bc_io.specs.Growing.{GrewBy};
ghost use Rattle.bc_text.specs.Layout.{vec2_text, vec3_text, vec4_text, translate_text, cube_text, square_text, circle_text, matrix_text, slab_text, strip_text, box3_text, box2_text, leaf_text, last_row};

use bc_io::{Pen, Sink};
use bc_num::{Box2, Box3, Disc2, V2, V3};
use bc_tree::{Frame2, Frame3, Leaf};

pub fn put_leaf<K: Sink>(pen: &mut Pen<K>, leaf: &Leaf)
    requires { IsLeaf leaf.now }
    ensures { GrewBy K.held K.faults pen.old pen.new (leaf_text leaf.now) }
{
    match leaf {
        Leaf::Slab(f) => put_slab(pen, f),
        Leaf::Strip(f) => put_strip(pen, f),
        Leaf::Disc(d) => put_disc(pen, d),
        Leaf::Block(b) => put_block(pen, b),
        Leaf::Tile(b) => put_tile(pen, b),
    }
}

fn put_slab<K: Sink>(pen: &mut Pen<K>, f: &Frame3)
    requires { IsFrame3 f.now }
    ensures { GrewBy K.held K.faults pen.old pen.new (leaf_text (leaves.Slab f.now)) }
{
    if f.is_axis() {
        put_box3(pen, f.least_corner(), f.sides());
    } else {
        put_long_slab(pen, f);
    }
}

// The box of this least corner and these sides.
fn put_box3<K: Sink>(pen: &mut Pen<K>, corner: V3, sides: V3)
    ensures { GrewBy K.held K.faults pen.old pen.new (box3_text corner sides) }
{
    put_translate(pen, corner.x, corner.y, corner.z);
    put_cube(pen, sides.x, sides.y, sides.z);
}

fn put_long_slab<K: Sink>(pen: &mut Pen<K>, f: &Frame3)
    requires { IsFrame3 f.now }
    ensures { GrewBy K.held K.faults pen.old pen.new (slab_text f.now.o (u_of f.now.n) (v_of f.now.n) f.now.n) }
{
    put_columns(pen, f.u(), f.v(), f.n, f.o);
    put_translate(pen, -8192, -8192, 0);
    put_cube(pen, 16384, 16384, 8192);
}

// The matrix of these columns.
fn put_columns<K: Sink>(pen: &mut Pen<K>, u: V3, v: V3, n: V3, o: V3)
    ensures { GrewBy K.held K.faults pen.old pen.new (
        matrix_text (vec4_text u.x v.x n.x o.x) (vec4_text u.y v.y n.y o.y) (vec4_text u.z v.z n.z o.z)) }
{
    pen.put(b"multmatrix([");
    put_vec4(pen, u.x, v.x, n.x, o.x);
    pen.put(b",");
    put_vec4(pen, u.y, v.y, n.y, o.y);
    pen.put(b",");
    put_vec4(pen, u.z, v.z, n.z, o.z);
    put_last_row(pen);
}

fn put_strip<K: Sink>(pen: &mut Pen<K>, f: &Frame2)
    requires { IsFrame2 f.now }
    ensures { GrewBy K.held K.faults pen.old pen.new (leaf_text (leaves.Strip f.now)) }
{
    if f.is_axis() {
        put_box2(pen, f.least_corner(), f.sides());
    } else {
        put_long_strip(pen, f);
    }
}

// The rectangle of this least corner and these sides.
fn put_box2<K: Sink>(pen: &mut Pen<K>, corner: V2, sides: V2)
    ensures { GrewBy K.held K.faults pen.old pen.new (box2_text corner sides) }
{
    put_translate(pen, corner.x, corner.y, 0);
    put_square(pen, sides.x, sides.y);
}

fn put_long_strip<K: Sink>(pen: &mut Pen<K>, f: &Frame2)
    requires { IsFrame2 f.now }
    ensures { GrewBy K.held K.faults pen.old pen.new (strip_text f.now.o f.now.u (normal_of f.now.u)) }
{
    put_plane_columns(pen, f.u, f.normal(), f.o);
    put_translate(pen, -8192, 0, 0);
    put_square(pen, 16384, 8192);
}

// The matrix of the columns u and n of the plane, (0, 0, 1) and o.
fn put_plane_columns<K: Sink>(pen: &mut Pen<K>, u: V2, n: V2, o: V2)
    ensures { GrewBy K.held K.faults pen.old pen.new (
        matrix_text (vec4_text u.x n.x (pos 0) o.x) (vec4_text u.y n.y (pos 0) o.y) (vec4_text (pos 0) (pos 0) (pos 1) (pos 0))) }
{
    pen.put(b"multmatrix([");
    put_vec4(pen, u.x, n.x, 0, o.x);
    pen.put(b",");
    put_vec4(pen, u.y, n.y, 0, o.y);
    pen.put(b",");
    put_vec4(pen, 0, 0, 1, 0);
    put_last_row(pen);
}

fn put_disc<K: Sink>(pen: &mut Pen<K>, d: &Disc2)
    ensures { GrewBy K.held K.faults pen.old pen.new (leaf_text (leaves.Disc d.now)) }
{
    put_translate(pen, d.c.x, d.c.y, 0);
    put_circle(pen, d.r2);
}

fn put_block<K: Sink>(pen: &mut Pen<K>, b: &Box3)
    requires { IsBlock b.now }
    ensures { GrewBy K.held K.faults pen.old pen.new (leaf_text (leaves.Block b.now)) }
{
    put_translate(pen, b.x0, b.y0, b.z0);
    put_cube(pen, b.x1 - b.x0, b.y1 - b.y0, b.z1 - b.z0);
}

fn put_tile<K: Sink>(pen: &mut Pen<K>, b: &Box2)
    requires { IsTile b.now }
    ensures { GrewBy K.held K.faults pen.old pen.new (leaf_text (leaves.Tile b.now)) }
{
    put_translate(pen, b.x0, b.y0, 0);
    put_square(pen, b.x1 - b.x0, b.y1 - b.y0);
}

fn put_last_row<K: Sink>(pen: &mut Pen<K>)
    ensures { GrewBy K.held K.faults pen.old pen.new last_row }
{
    pen.put(b",");
    put_vec4(pen, 0, 0, 0, 1);
    pen.put(b"]) ");
}

fn put_translate<K: Sink>(pen: &mut Pen<K>, x: i64, y: i64, z: i64)
    ensures { GrewBy K.held K.faults pen.old pen.new (translate_text x y z) }
{
    pen.put(b"translate(");
    put_vec3(pen, x, y, z);
    pen.put(b") ");
}

fn put_cube<K: Sink>(pen: &mut Pen<K>, x: i64, y: i64, z: i64)
    ensures { GrewBy K.held K.faults pen.old pen.new (cube_text x y z) }
{
    pen.put(b"cube(");
    put_vec3(pen, x, y, z);
    pen.put(b")");
}

fn put_square<K: Sink>(pen: &mut Pen<K>, x: i64, y: i64)
    ensures { GrewBy K.held K.faults pen.old pen.new (square_text x y) }
{
    pen.put(b"square(");
    put_vec2(pen, x, y);
    pen.put(b")");
}

fn put_circle<K: Sink>(pen: &mut Pen<K>, r2: i64)
    ensures { GrewBy K.held K.faults pen.old pen.new (circle_text r2) }
{
    pen.put(b"circle(r=sqrt(");
    pen.put_number(r2);
    pen.put(b"))");
}

fn put_vec2<K: Sink>(pen: &mut Pen<K>, x: i64, y: i64)
    ensures { GrewBy K.held K.faults pen.old pen.new (vec2_text x y) }
{
    pen.put(b"[");
    pen.put_number(x);
    pen.put_next(b",", y);
    pen.put(b"]");
}

fn put_vec3<K: Sink>(pen: &mut Pen<K>, x: i64, y: i64, z: i64)
    ensures { GrewBy K.held K.faults pen.old pen.new (vec3_text x y z) }
{
    pen.put(b"[");
    pen.put_number(x);
    pen.put_next(b",", y);
    pen.put_next(b",", z);
    pen.put(b"]");
}

fn put_vec4<K: Sink>(pen: &mut Pen<K>, x: i64, y: i64, z: i64, w: i64)
    ensures { GrewBy K.held K.faults pen.old pen.new (vec4_text x y z w) }
{
    pen.put(b"[");
    pen.put_number(x);
    pen.put_next(b",", y);
    pen.put_next(b",", z);
    pen.put_next(b",", w);
    pen.put(b"]");
}
