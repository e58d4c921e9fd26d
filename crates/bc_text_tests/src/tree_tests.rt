//! Points inside, outside and on the edge of a tetrahedron, which frames there are, and points at the ends of slabs.
ghost use Rattle.std.specs.Prelude.{IfOk};
ghost use Rattle.bc_tree.specs.Shape.{shape, AllLeaves};
ghost use Rattle.bc_tree.specs.Leaves.{IsLeaf};

use bc_cover::{Blocks, Term};
use bc_num::{Box3, List, P3, V2, V3};
use bc_tree::*;
use std::alloc::Global;
use std::test::Fail;

fn slab(o: V3, n: V3) -> Result<Leaf, &'static str>
    ensures { IfOk result IsLeaf }
{
    match Frame3::new(o, n) {
        Some(f) => Ok(Leaf::Slab(f)),
        None => Err("no frame"),
    }
}

// The tetrahedron of (0, 0, 0), (1, 0, 0), (0, 1, 0) and (0, 0, 1): in the box from -1 to 2, above three faces and not above
// the slanted one.
fn tetrahedron(alloc: Global) -> Result<Tree, &'static str>
    ensures { IfOk result (λ t. AllLeaves IsLeaf (shape t)) }
{
    let origin = V3 { x: 0, y: 0, z: 0 };
    let literals = [
        slab(origin, V3 { x: 0, y: 0, z: 1 })?,
        slab(origin, V3 { x: 0, y: 1, z: 0 })?,
        slab(origin, V3 { x: 1, y: 0, z: 0 })?,
        slab(V3 { x: 1, y: 0, z: 0 }, V3 { x: 1, y: 1, z: 1 })?,
    ];
    let block = Leaf::Block(Box3 {
        x0: -1,
        y0: -1,
        z0: -1,
        x1: 2,
        y1: 2,
        z1: 2,
    });
    let mut terms = List::new(alloc);
    let term = Term {
        pos: 7,
        neg: 8,
        own: 0,
        blocks: Blocks::new(alloc),
    };
    terms.push(term).map_err(|_| "memory")?;
    tree_of(alloc, block, &literals, &terms).map_err(|_| "memory")
}

#[test]
fn points_of_a_tetrahedron(rt: HostRuntime) -> Result<(), Fail> {
    let t = tetrahedron(rt.alloc())?;
    assert_eq!(rt;
        holds3(
            &t,
            &P3 {
                x: 1,
                y: 1,
                z: 1,
                w: 8
            }
        ),
        Truth::Inside
    );
    assert_eq!(rt;
        holds3(
            &t,
            &P3 {
                x: 1,
                y: 1,
                z: -1,
                w: 4
            }
        ),
        Truth::Outside
    );
    assert_eq!(rt;
        holds3(
            &t,
            &P3 {
                x: 0,
                y: 1,
                z: 1,
                w: 4
            }
        ),
        Truth::Edge
    );
    assert_eq!(rt; is_solid(&t), true);
    assert_eq!(rt; is_flat(&t), false);
    Ok(())
}

#[test]
fn frames_of_primitive_vectors_alone(rt: HostRuntime) {
    for (o, n, want) in [
        (0, V3 { x: 0, y: -1, z: 0 }, true),
        (
            1023,
            V3 {
                x: -6,
                y: 10,
                z: 15,
            },
            true,
        ),
        (1024, V3 { x: 0, y: 0, z: 1 }, false),
        (0, V3 { x: 6, y: 10, z: -4 }, false),
        (0, V3 { x: 0, y: 0, z: 0 }, false),
        (
            0,
            V3 {
                x: 1,
                y: 8388607,
                z: 0,
            },
            true,
        ),
        (
            0,
            V3 {
                x: 1,
                y: 8388608,
                z: 0,
            },
            false,
        ),
    ] {
        assert_eq!(rt;
            Frame3::new(V3 { x: 0, y: o, z: 0 }, n).is_some(),
            want,
            "{o} {n:?}"
        );
    }
    for (o, u, want) in [
        (-1023, V2 { x: 3, y: -2 }, true),
        (-1024, V2 { x: 3, y: -2 }, false),
        (0, V2 { x: -2046, y: 1 }, true),
        (0, V2 { x: -2047, y: 1 }, false),
        (0, V2 { x: 0, y: 2 }, false),
    ] {
        assert_eq!(rt;
            Frame2::new(V2 { x: o, y: 0 }, u).is_some(),
            want,
            "{o} {u:?}"
        );
    }
}

// Expected by solving p = o + s u + t v + k n with fractions.
#[test]
fn places_at_the_ends_of_slabs(rt: HostRuntime) -> Result<(), Fail> {
    let none = V3 { x: 0, y: 0, z: 0 };
    for (n, p, want) in [
        (
            V3 { x: -7, y: 3, z: 5 },
            P3 {
                x: -49231,
                y: 172068,
                z: -171965,
                w: 3,
            },
            Truth::Edge,
        ),
        (
            V3 { x: -7, y: 3, z: 5 },
            P3 {
                x: 73647,
                y: 172075,
                z: 60,
                w: 3,
            },
            Truth::Outside,
        ),
        (
            V3 { x: 0, y: -4, z: 9 },
            P3 {
                x: 5,
                y: 368636,
                z: 163849,
                w: 5,
            },
            Truth::Edge,
        ),
        (
            V3 { x: 0, y: -4, z: 9 },
            P3 {
                x: 0,
                y: -532489,
                z: 204796,
                w: 5,
            },
            Truth::Outside,
        ),
        (
            V3 { x: 2, y: 0, z: -1 },
            P3 {
                x: -3,
                y: -2,
                z: -1,
                w: 7,
            },
            Truth::Outside,
        ),
        (
            V3 { x: 0, y: 0, z: -1 },
            P3 {
                x: -8191,
                y: 8191,
                z: -8191,
                w: 1,
            },
            Truth::Inside,
        ),
    ] {
        let t = Tree::Leaf(slab(none, n)?);
        assert_eq!(rt; holds3(&t, &p), want, "{n:?}");
    }
    Ok(())
}
