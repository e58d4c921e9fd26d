//! How many regions or cells are inside two boundaries under each operation: two squares that overlap, and a
//! tetrahedron with itself.
ghost use Rattle.std.specs.Prelude.{◌≡◌, ◌≤◌, ◌<◌, ◌^◌, true, [], ◌∷◌, length, IfOk, All};
ghost use Rattle.std.specs.List.{list_all};
ghost use Rattle.bc_solid.specs.Closed.{IsContour};
ghost use Rattle.bc_solid.specs.Contours.{is_drawn};

use bc_cells::{Cell, cells};
use bc_classify::{Split2, Split3};
use bc_combine::{Op, combine2, combine3};
use bc_discs::Candidate;
use bc_natural::{box3, curves, planes};
use bc_num::{Box2, List, Memory, V2, V3};
use bc_solid::{
    Element, Face, Profile, RawContours, RawMesh, Solid, check_contours, check_mesh, join_profiles,
};
use bc_space::{Flat, Solid3};
use std::alloc::Global;
use std::test::Fail;

const BOX: Box2 = Box2 {
    x0: -1,
    y0: -1,
    x1: 7,
    y1: 5,
};

fn profile_of(alloc: Global, elements: Vec<Element>) -> Result<Profile, Fail>
    requires closed { IsContour elements.items }
    requires drawn { list_all is_drawn elements.items ≡ true }
    requires few { length elements.items ≤ 2 ^ 20 }
{
    let contours = vec![in alloc; List::from_vec(elements)]?;
    let raw = RawContours {
        contours: List::from_vec(contours),
    };
    Ok(check_contours(alloc, raw)?)
}

// A square of side 4, from 0 to 4 along x.
fn first_square(alloc: Global) -> Result<Profile, Fail> {
    let elements = vec![in alloc;
        Element::Edge {
            a: V2 { x: 0, y: 0 },
            b: V2 { x: 4, y: 0 }
        },
        Element::Edge {
            a: V2 { x: 4, y: 0 },
            b: V2 { x: 4, y: 4 }
        },
        Element::Edge {
            a: V2 { x: 4, y: 4 },
            b: V2 { x: 0, y: 4 }
        },
        Element::Edge {
            a: V2 { x: 0, y: 4 },
            b: V2 { x: 0, y: 0 }
        },
    ]?;
    profile_of(alloc, elements)
}

// The same, from 2 to 6.
fn second_square(alloc: Global) -> Result<Profile, Fail> {
    let elements = vec![in alloc;
        Element::Edge {
            a: V2 { x: 2, y: 0 },
            b: V2 { x: 6, y: 0 }
        },
        Element::Edge {
            a: V2 { x: 6, y: 0 },
            b: V2 { x: 6, y: 4 }
        },
        Element::Edge {
            a: V2 { x: 6, y: 4 },
            b: V2 { x: 2, y: 4 }
        },
        Element::Edge {
            a: V2 { x: 2, y: 4 },
            b: V2 { x: 2, y: 0 }
        },
    ]?;
    profile_of(alloc, elements)
}

fn each_region(alloc: Global, regions: &List<Cell<Flat>>) -> Result<List<Candidate>, Memory>
    ensures { IfOk result (All (λ k. k.region < length regions.now)) }
{
    let mut all = List::new(alloc);
    for r in 0..regions.len() {
        all.push(Candidate {
            mask: regions.get(r).mask,
            region: r,
            seen: None,
        })?;
    }
    Ok(all)
}

fn joined(alloc: Global, a: &Profile, b: &Profile) -> Result<Profile, Fail> {
    if a.elements() > 4 || b.elements() > 4 {
        return Err(Fail::from("more elements"));
    }
    Ok(join_profiles(alloc, a, b)?)
}

// The regions of the lines of both, by the operation.
fn combined(
    alloc: Global,
    op: Op,
    a: &Profile,
    b: &Profile,
    both: &Profile,
) -> Result<Split2, Fail> {
    let table = curves(alloc, both)?;
    let lines = table.line_list(alloc)?;
    let regions = cells::<Flat>(alloc, &BOX, lines.as_slice())?;
    let all = each_region(alloc, &regions)?;
    Ok(combine2(alloc, op, a, b, &table, &regions, &all)?)
}

fn squares(alloc: Global, op: Op) -> Result<Split2, Fail> {
    let a = first_square(alloc)?;
    let b = second_square(alloc)?;
    let both = joined(alloc, &a, &b)?;
    combined(alloc, op, &a, &b, &both)
}

// The squares overlap: of the 15 regions of their lines three are in one of them, and one of these in both.
#[test]
fn two_squares(rt: HostRuntime) -> Result<(), Fail> {
    let union = squares(rt.alloc(), Op::Union)?;
    assert_eq!(rt; union.inside.len(), 3);
    assert_eq!(rt; union.outside.len(), 12);
    assert_eq!(rt; squares(rt.alloc(), Op::Intersection)?.inside.len(), 1);
    assert_eq!(rt; squares(rt.alloc(), Op::Difference)?.inside.len(), 1);
    Ok(())
}

fn triangle(alloc: Global, a: u32, b: u32, c: u32) -> Result<Face, Fail>
    ensures { IfOk result (λ f. f ≡ a ∷ (b ∷ (c ∷ []))) }
{
    let mut face = Face::new(alloc);
    face.push(a)?;
    face.push(b)?;
    face.push(c)?;
    Ok(face)
}

// The tetrahedron of (0, 0, 0), (1, 0, 0), (0, 1, 0) and (0, 0, 1).
fn tetrahedron(alloc: Global) -> Result<Solid, Fail> {
    let points = vec![in alloc;
        V3 { x: 0, y: 0, z: 0 },
        V3 { x: 1, y: 0, z: 0 },
        V3 { x: 0, y: 1, z: 0 },
        V3 { x: 0, y: 0, z: 1 },
    ]?;
    let faces = vec![in alloc;
        triangle(alloc, 0, 2, 1)?,
        triangle(alloc, 0, 1, 3)?,
        triangle(alloc, 0, 3, 2)?,
        triangle(alloc, 1, 2, 3)?,
    ]?;
    let raw = RawMesh {
        points: List::from_vec(points),
        faces: List::from_vec(faces),
    };
    Ok(check_mesh(alloc, raw)?)
}

// The cells of the planes of a tetrahedron, by the operation on it and itself.
fn tetrahedra(alloc: Global, op: Op) -> Result<Split3, Fail> {
    let s = tetrahedron(alloc)?;
    let table = planes(alloc, &s)?;
    let halves = table.plane_list(alloc)?;
    let all = cells::<Solid3>(alloc, &box3(&s), halves.as_slice())?;
    Ok(combine3(alloc, op, &s, &s, &all)?)
}

// Of the 15 cells one is in the tetrahedron, and none is in it and not in it.
#[test]
fn a_tetrahedron_with_itself(rt: HostRuntime) -> Result<(), Fail> {
    assert_eq!(rt; tetrahedra(rt.alloc(), Op::Union)?.inside.len(), 1);
    assert_eq!(rt; tetrahedra(rt.alloc(), Op::Intersection)?.inside.len(), 1);
    let none = tetrahedra(rt.alloc(), Op::Difference)?;
    assert_eq!(rt; none.inside.len(), 0);
    assert_eq!(rt; none.outside.len(), 15);
    Ok(())
}
