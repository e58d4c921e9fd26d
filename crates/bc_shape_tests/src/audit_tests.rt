//! Trees against a tetrahedron: one that means it, also with a plane turned over; one with another box; and one that
//! lacks a literal, with the point that shows it.
ghost use Rattle.std.specs.Prelude.{◌≡◌, [], ◌∷◌, IfOk};
ghost use Rattle.bc_tree.specs.Shape.{shape, AllLeaves};
ghost use Rattle.bc_tree.specs.Leaves.{IsLeaf, IsBlock};

use bc_audit::*;
use bc_cover::{Blocks, Term};
use bc_num::{Box3, List, P3, V3};
use bc_solid::{Face, RawMesh, Solid, check_mesh};
use bc_tree::{Frame3, Leaf, Tree, tree_of};
use std::alloc::Global;
use std::test::Fail;

const ORIGIN: V3 = V3 { x: 0, y: 0, z: 0 };

// The box of the tetrahedron.
const BOX: Box3 = Box3 {
    x0: -1,
    y0: -1,
    z0: -1,
    x1: 2,
    y1: 2,
    z1: 2,
};

const UNIT: Box3 = Box3 {
    x0: 0,
    y0: 0,
    z0: 0,
    x1: 1,
    y1: 1,
    z1: 1,
};

fn triangle(alloc: Global, a: u32, b: u32, c: u32) -> Result<Face, Fail>
    ensures { IfOk result (λ f. f ≡ a ∷ (b ∷ (c ∷ []))) }
{
    let mut face = Face::new(alloc);
    face.push(a)?;
    face.push(b)?;
    face.push(c)?;
    Ok(face)
}

// The tetrahedron of (0, 0, 0), (1, 0, 0), (0, 1, 0) and (0, 0, 1).
fn tetrahedron(alloc: Global) -> Result<Solid, Fail> {
    let points = vec![in alloc;
        ORIGIN,
        V3 { x: 1, y: 0, z: 0 },
        V3 { x: 0, y: 1, z: 0 },
        V3 { x: 0, y: 0, z: 1 },
    ]?;
    let faces = vec![in alloc;
        triangle(alloc, 0, 2, 1)?,
        triangle(alloc, 0, 1, 3)?,
        triangle(alloc, 0, 3, 2)?,
        triangle(alloc, 1, 2, 3)?,
    ]?;
    let raw = RawMesh {
        points: List::from_vec(points),
        faces: List::from_vec(faces),
    };
    Ok(check_mesh(alloc, raw)?)
}

fn slab(o: V3, n: V3) -> Result<Leaf, &'static str>
    ensures { IfOk result IsLeaf }
{
    match Frame3::new(o, n) {
        Some(f) => Ok(Leaf::Slab(f)),
        None => Err("no frame"),
    }
}

// In a box, above the planes of some of five slabs and not above others. The last slab is the fourth, turned over and with
// another origin.
fn tree(alloc: Global, block: Box3, pos: u64, neg: u64) -> Result<Tree, &'static str>
    requires { IsBlock block }
    ensures { IfOk result (λ t. AllLeaves IsLeaf (shape t)) }
{
    let literals = [
        slab(ORIGIN, V3 { x: 0, y: 0, z: 1 })?,
        slab(ORIGIN, V3 { x: 0, y: 1, z: 0 })?,
        slab(ORIGIN, V3 { x: 1, y: 0, z: 0 })?,
        slab(V3 { x: 1, y: 0, z: 0 }, V3 { x: 1, y: 1, z: 1 })?,
        slab(
            V3 { x: 0, y: 7, z: -6 },
            V3 {
                x: -1,
                y: -1,
                z: -1,
            },
        )?,
    ];
    let mut terms = List::new(alloc);
    let term = Term {
        pos,
        neg,
        own: 0,
        blocks: Blocks::new(alloc),
    };
    terms.push(term).map_err(|_| "memory")?;
    match tree_of(alloc, Leaf::Block(block), &literals, &terms) {
        Ok(t) => Ok(t),
        Err(_) => Err("memory"),
    }
}

#[test]
fn the_tree_of_a_tetrahedron(rt: HostRuntime) -> Result<(), Fail> {
    let s = tetrahedron(rt.alloc())?;
    let same = tree(rt.alloc(), BOX, 7, 8)?;
    assert_eq!(rt; audit(rt.alloc(), &s, &same), Ok(Verdict::Same));
    // the slanted face by a slab that is turned over
    let turned = tree(rt.alloc(), BOX, 23, 0)?;
    assert_eq!(rt; audit(rt.alloc(), &s, &turned), Ok(Verdict::Same));
    let other = tree(rt.alloc(), UNIT, 7, 8)?;
    assert_eq!(rt; audit(rt.alloc(), &s, &other), Err(AuditFault::OtherBox));
    Ok(())
}

// Without the first literal the point is below the bottom, and above the other faces.
#[test]
fn a_tree_without_a_literal(rt: HostRuntime) -> Result<(), Fail> {
    let s = tetrahedron(rt.alloc())?;
    let less = tree(rt.alloc(), BOX, 6, 8)?;
    match audit(rt.alloc(), &s, &less) {
        Ok(Verdict::Differs(p)) => {
            assert!(rt; p.x > 0 && p.y > 0 && p.z < 0);
            let sum = p.x.wrapping_add(p.y).wrapping_add(p.z);
            assert!(rt; sum < p.w);
        }
        _ => return Err(Fail::from("no point")),
    }
    Ok(())
}
