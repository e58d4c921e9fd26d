//! The lines, discs and planes of boundaries with their origins, the boxes round them, and what is answered at and
//! past the limits of lines and discs.
ghost use Rattle.std.specs.Prelude.{◌≡◌, ◌≤◌, ◌<◌, ◌^◌, true, [], ◌∷◌, length, nat_lt, IfOk};
ghost use Rattle.std.specs.List.{list_all};
ghost use Rattle.bc_solid.specs.Closed.{IsContour};
ghost use Rattle.bc_solid.specs.Contours.{is_drawn};
ghost use Rattle.bc_solid.specs.Meshes.{corner_count};

use bc_natural::{NatFault, box2, box3, curves, planes};
use bc_num::{Disc2, List, V2, V3};
use bc_solid::{Element, Face, Profile, RawContours, RawMesh, Solid, check_contours, check_mesh};
use bc_space::{Line2, Plane3};
use std::alloc::Global;
use std::test::Fail;

const ORIGIN: V2 = V2 { x: 0, y: 0 };

// An edge at a height, and back.
fn rung(alloc: Global, height: u8) -> Result<List<Element>, Fail>
    ensures closed { IfOk result IsContour }
    ensures drawn { IfOk result (λ es. list_all is_drawn es ≡ true) }
    ensures count { IfOk result (λ es. length es ≡ 2) }
{
    let y = i64::from(height);
    let a = V2 { x: 0, y };
    let b = V2 { x: 1, y };
    let elements = vec![in alloc; Element::Edge { a, b }, Element::Edge { a: b, b: a }]?;
    Ok(List::from_vec(elements))
}

// A full circle round the origin.
fn ring(alloc: Global, radius: u8) -> Result<List<Element>, Fail>
    ensures closed { IfOk result IsContour }
    ensures drawn { IfOk result (λ es. list_all is_drawn es ≡ true) }
    ensures count { IfOk result (λ es. length es ≡ 1) }
{
    let a = V2 {
        x: i64::from(radius),
        y: 0,
    };
    let elements = vec![in alloc;
        Element::Arc {
            a,
            b: a,
            c: ORIGIN,
            ccw: true
        },
    ]?;
    Ok(List::from_vec(elements))
}

fn profile_of(alloc: Global, elements: Vec<Element>) -> Result<Profile, Fail>
    requires closed { IsContour elements.items }
    requires drawn { list_all is_drawn elements.items ≡ true }
    requires few { length elements.items ≤ 2 ^ 20 }
{
    let contours = vec![in alloc; List::from_vec(elements)]?;
    let raw = RawContours {
        contours: List::from_vec(contours),
    };
    Ok(check_contours(alloc, raw)?)
}

// Of a ring of radius k + 1 and a rung at height k the one that is asked for.
fn figure(alloc: Global, k: u8, round: bool) -> Result<List<Element>, Fail>
    requires { k < 255 }
    ensures closed { IfOk result IsContour }
    ensures drawn { IfOk result (λ es. list_all is_drawn es ≡ true) }
    ensures count { IfOk result (λ es. length es ≤ 2) }
{
    if round {
        ring(alloc, k + 1)
    } else {
        rung(alloc, k)
    }
}

// Rings or rungs, as many as told.
fn figures(alloc: Global, count: u8, round: bool) -> Result<Profile, Fail> {
    let mut contours = List::new(alloc);
    for k in 0..count {
        contours.push(figure(alloc, k, round)?)?;
    }
    let raw = RawContours { contours };
    Ok(check_contours(alloc, raw)?)
}

fn corners(s: &Profile) -> (i64, i64, i64, i64) {
    let b = box2(s);
    (b.x0, b.y0, b.x1, b.y1)
}

fn right_triangle(alloc: Global) -> Result<Profile, Fail> {
    let right = V2 { x: 4, y: 0 };
    let top = V2 { x: 0, y: 4 };
    let elements = vec![in alloc;
        Element::Edge {
            a: ORIGIN,
            b: right
        },
        Element::Edge { a: right, b: top },
        Element::Edge { a: top, b: ORIGIN },
    ]?;
    profile_of(alloc, elements)
}

#[test]
fn a_triangle(rt: HostRuntime) -> Result<(), Fail> {
    let s = right_triangle(rt.alloc())?;
    assert_eq!(rt; corners(&s), (-1, -1, 5, 5));
    let table = curves(rt.alloc(), &s)?;
    let lines = table.line_list(rt.alloc())?;
    assert_eq!(rt;
        lines.as_slice(),
        [
            Line2 { a: 0, b: 1, d: 0 },
            Line2 { a: 1, b: 1, d: 4 },
            Line2 { a: -1, b: 0, d: 0 },
        ]
        .as_slice()
    );
    Ok(())
}

#[test]
fn lines_with_their_origins(rt: HostRuntime) -> Result<(), Fail> {
    let s = right_triangle(rt.alloc())?;
    let table = curves(rt.alloc(), &s)?;
    assert_eq!(rt; table.lines(), 3);
    assert_eq!(rt; table.discs(), 0);
    assert_eq!(rt; table.line(1), Line2 { a: 1, b: 1, d: 4 });
    assert_eq!(rt; table.origin(1), V2 { x: 4, y: 0 });
    assert_eq!(rt;
        table.entry(2),
        (Line2 { a: -1, b: 0, d: 0 }, V2 { x: 0, y: 4 })
    );
    Ok(())
}

fn half_disc(alloc: Global) -> Result<Profile, Fail> {
    let left = V2 { x: -5, y: 0 };
    let right = V2 { x: 5, y: 0 };
    let elements = vec![in alloc;
        Element::Arc {
            a: left,
            b: right,
            c: ORIGIN,
            ccw: true
        },
        Element::Edge { a: right, b: left },
    ]?;
    profile_of(alloc, elements)
}

// The chord of the arc is on the line of the edge, and the arc goes down to the lowest point of its circle.
#[test]
fn half_a_disc(rt: HostRuntime) -> Result<(), Fail> {
    let s = half_disc(rt.alloc())?;
    assert_eq!(rt; corners(&s), (-6, -6, 6, 6));
    let table = curves(rt.alloc(), &s)?;
    assert_eq!(rt; table.lines(), 1);
    assert_eq!(rt; table.origin(0), V2 { x: -5, y: 0 });
    Ok(())
}

#[test]
fn a_disc_of_an_arc(rt: HostRuntime) -> Result<(), Fail> {
    let s = half_disc(rt.alloc())?;
    let table = curves(rt.alloc(), &s)?;
    assert_eq!(rt; table.discs(), 1);
    assert_eq!(rt; table.disc(0), Disc2 { c: ORIGIN, r2: 25 });
    let discs = table.disc_list(rt.alloc())?;
    assert_eq!(rt; discs.as_slice(), [Disc2 { c: ORIGIN, r2: 25 }].as_slice());
    Ok(())
}

#[test]
fn lines_to_their_limit(rt: HostRuntime) -> Result<(), Fail> {
    for (count, want, around) in [
        (0u8, Ok(0), (-1, -1, 1, 1)),
        (1, Ok(1), (-1, -1, 2, 1)),
        (40, Ok(40), (-1, -1, 2, 40)),
        (41, Err(NatFault::TooManyLines { n: 41 }), (-1, -1, 2, 41)),
    ] {
        let s = figures(rt.alloc(), count, false)?;
        let found = curves(rt.alloc(), &s).map(|table| table.lines());
        assert_eq!(rt; found, want, "of {count} rungs");
        assert_eq!(rt; corners(&s), around, "of {count} rungs");
    }
    Ok(())
}

#[test]
fn discs_to_their_limit(rt: HostRuntime) -> Result<(), Fail> {
    for (count, want, around) in [
        (10u8, Ok((0, 10)), (-11, -11, 11, 11)),
        (
            11,
            Err(NatFault::TooManyDiscs { n: 11 }),
            (-12, -12, 12, 12),
        ),
    ] {
        let s = figures(rt.alloc(), count, true)?;
        let found = curves(rt.alloc(), &s).map(|table| (table.lines(), table.discs()));
        assert_eq!(rt; found, want, "of {count} rings");
        assert_eq!(rt; corners(&s), around, "of {count} rings");
    }
    Ok(())
}

fn triangle(alloc: Global, a: u32, b: u32, c: u32) -> Result<Face, Fail>
    ensures { IfOk result (λ f. f ≡ a ∷ (b ∷ (c ∷ []))) }
{
    let mut face = Face::new(alloc);
    face.push(a)?;
    face.push(b)?;
    face.push(c)?;
    Ok(face)
}

// The faces over the corners of a tetrahedron, of which the last three are on x + y + z = 2.
fn over_tips(alloc: Global, faces: Vec<Face>) -> Result<Solid, Fail>
    requires places { list_all (λ face. list_all (λ i. nat_lt i 4) face) faces.items ≡ true }
    requires few_faces { length faces.items ≤ 2 ^ 20 }
    requires few_corners { corner_count faces.items ≤ 2 ^ 20 }
{
    let points = vec![in alloc;
        V3 { x: 0, y: 0, z: 0 },
        V3 { x: 2, y: 0, z: 0 },
        V3 { x: 0, y: 2, z: 0 },
        V3 { x: 0, y: 0, z: 2 },
    ]?;
    let raw = RawMesh {
        points: List::from_vec(points),
        faces: List::from_vec(faces),
    };
    Ok(check_mesh(alloc, raw)?)
}

fn corners3(s: &Solid) -> ((i64, i64, i64), (i64, i64, i64)) {
    let b = box3(s);
    ((b.x0, b.y0, b.z0), (b.x1, b.y1, b.z1))
}

fn tetrahedron(alloc: Global) -> Result<Solid, Fail> {
    let faces = vec![in alloc;
        triangle(alloc, 2, 1, 0)?,
        triangle(alloc, 0, 1, 3)?,
        triangle(alloc, 3, 2, 0)?,
        triangle(alloc, 1, 2, 3)?,
    ]?;
    over_tips(alloc, faces)
}

#[test]
fn a_tetrahedron(rt: HostRuntime) -> Result<(), Fail> {
    let s = tetrahedron(rt.alloc())?;
    assert_eq!(rt; corners3(&s), ((-1, -1, -1), (3, 3, 3)));
    let table = planes(rt.alloc(), &s)?;
    assert_eq!(rt; table.len(), 4);
    for (i, numbers, origin) in [
        (0usize, (0, 0, 1, 0), V3 { x: 0, y: 2, z: 0 }),
        (1, (0, 1, 0, 0), V3 { x: 0, y: 0, z: 0 }),
        (2, (1, 0, 0, 0), V3 { x: 0, y: 0, z: 2 }),
        (3, (1, 1, 1, 2), V3 { x: 2, y: 0, z: 0 }),
    ] {
        assert!(rt; i < table.len());
        let (h, first) = table.entry(i);
        assert_eq!(rt; (h.a, h.b, h.c, h.d), numbers, "of plane {i}");
        assert_eq!(rt; first, origin, "of plane {i}");
    }
    Ok(())
}

// Both faces of a flat mesh are on one plane, with the corner that was first.
#[test]
fn a_plane_of_two_faces(rt: HostRuntime) -> Result<(), Fail> {
    let faces = vec![in rt.alloc();
        triangle(rt.alloc(), 1, 2, 0)?,
        triangle(rt.alloc(), 0, 2, 1)?,
    ]?;
    let s = over_tips(rt.alloc(), faces)?;
    let table = planes(rt.alloc(), &s)?;
    assert_eq!(rt; table.len(), 1);
    assert_eq!(rt; table.origin(0), V3 { x: 2, y: 0, z: 0 });
    let floor = Plane3 {
        a: 0,
        b: 0,
        c: 1,
        d: 0,
    };
    assert_eq!(rt; table.plane(0), floor);
    let list = table.plane_list(rt.alloc())?;
    assert_eq!(rt; list.as_slice(), [floor].as_slice());
    Ok(())
}

// The box is not that of the places, since none is a corner.
#[test]
fn no_faces(rt: HostRuntime) -> Result<(), Fail> {
    let s = over_tips(rt.alloc(), Vec::new(rt.alloc()))?;
    assert_eq!(rt; corners3(&s), ((-1, -1, -1), (1, 1, 1)));
    assert_eq!(rt; planes(rt.alloc(), &s)?.len(), 0);
    Ok(())
}
