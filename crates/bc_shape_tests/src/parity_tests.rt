//! Points against contours with an arc and against a tetrahedron: odd, even or on an edge. Some of them are in the
//! column of an end, or close to a corner.
ghost use Rattle.std.specs.Prelude.{◌≡◌, ◌≤◌, ◌^◌, ◌<ℤ◌, true, pos, [], ◌∷◌, length, IfOk};
ghost use Rattle.std.specs.List.{list_all};
ghost use Rattle.bc_algebra.specs.Within.{IsWithin};
ghost use Rattle.bc_solid.specs.Closed.{IsContour};
ghost use Rattle.bc_solid.specs.Contours.{is_drawn};

use bc_num::{List, P2, P3, V2, V3};
use bc_parity::{odd2, odd3, on_edge2, on_edge3, straight_odd2};
use bc_solid::{Element, Face, Profile, RawContours, RawMesh, Solid, check_contours, check_mesh};
use std::alloc::Global;
use std::test::Fail;

fn profile_of(alloc: Global, elements: Vec<Element>) -> Result<Profile, Fail>
    requires closed { IsContour elements.items }
    requires drawn { list_all is_drawn elements.items ≡ true }
    requires few { length elements.items ≤ 2 ^ 20 }
{
    let contours = vec![in alloc; List::from_vec(elements)]?;
    let raw = RawContours {
        contours: List::from_vec(contours),
    };
    Ok(check_contours(alloc, raw)?)
}

fn word_at(s: &Profile, x: i128, y: i128) -> &'static str
    requires x_near { IsWithin 10 x }
    requires y_near { IsWithin 10 y }
{
    let p = P2 { x, y, w: 1 };
    if on_edge2(s, &p) {
        "edge"
    } else if odd2(s, &p) {
        "odd"
    } else {
        "even"
    }
}

// An arc below a rim of three edges; the arc and an edge meet above and below the points in the column of -5.
#[test]
fn a_bowl(rt: HostRuntime) -> Result<(), Fail> {
    let elements = vec![in rt.alloc();
        Element::Arc {
            a: V2 { x: -5, y: 0 },
            b: V2 { x: 5, y: 0 },
            c: V2 { x: 0, y: 0 },
            ccw: true
        },
        Element::Edge {
            a: V2 { x: 5, y: 0 },
            b: V2 { x: 8, y: 5 }
        },
        Element::Edge {
            a: V2 { x: 8, y: 5 },
            b: V2 { x: -8, y: 5 }
        },
        Element::Edge {
            a: V2 { x: -8, y: 5 },
            b: V2 { x: -5, y: 0 }
        },
    ]?;
    let s = profile_of(rt.alloc(), elements)?;
    for (x, y, want) in [
        (-5i128, 8i128, "even"),
        (-5, 3, "odd"),
        (-5, 0, "edge"),
        (0, -3, "odd"),
        (0, -6, "even"),
    ] {
        assert!(rt; x.unsigned_abs() <= 10 && y.unsigned_abs() <= 10);
        assert_eq!(rt; word_at(&s, x, y), want, "at ({x}, {y})");
    }
    Ok(())
}

// A major arc and the edge back, on which its chord is.
#[test]
fn a_major_arc(rt: HostRuntime) -> Result<(), Fail> {
    let elements = vec![in rt.alloc();
        Element::Arc {
            a: V2 { x: 5, y: 0 },
            b: V2 { x: 0, y: -5 },
            c: V2 { x: 0, y: 0 },
            ccw: true
        },
        Element::Edge {
            a: V2 { x: 0, y: -5 },
            b: V2 { x: 5, y: 0 }
        },
    ]?;
    let s = profile_of(rt.alloc(), elements)?;
    for (x, y, want) in [
        (-3i128, 1i128, "odd"),
        (2, -4, "even"),
        (2, -3, "edge"),
        (0, 0, "odd"),
        (-1, 6, "even"),
    ] {
        assert!(rt; x.unsigned_abs() <= 10 && y.unsigned_abs() <= 10);
        assert_eq!(rt; word_at(&s, x, y), want, "at ({x}, {y})");
        assert!(rt; !straight_odd2(&s, &P2 { x, y, w: 1 }));
    }
    Ok(())
}

fn triangle(alloc: Global, a: u32, b: u32, c: u32) -> Result<Face, Fail>
    ensures { IfOk result (λ f. f ≡ a ∷ (b ∷ (c ∷ []))) }
{
    let mut face = Face::new(alloc);
    face.push(a)?;
    face.push(b)?;
    face.push(c)?;
    Ok(face)
}

// A floor of three corners and a tip, which is over the floor's inside. The planes are z = 0, z = 4y, z = 4x and
// 2x + 2y + z = 8.
fn tetrahedron(alloc: Global) -> Result<Solid, Fail> {
    let points = vec![in alloc;
        V3 { x: 0, y: 0, z: 0 },
        V3 { x: 4, y: 0, z: 0 },
        V3 { x: 0, y: 4, z: 0 },
        V3 { x: 1, y: 1, z: 4 },
    ]?;
    let faces = vec![in alloc;
        triangle(alloc, 0, 2, 1)?,
        triangle(alloc, 0, 1, 3)?,
        triangle(alloc, 0, 3, 2)?,
        triangle(alloc, 1, 2, 3)?,
    ]?;
    let raw = RawMesh {
        points: List::from_vec(points),
        faces: List::from_vec(faces),
    };
    Ok(check_mesh(alloc, raw)?)
}

fn word_over(s: &Solid, x: i64, y: i64, z: i64, w: i64) -> &'static str
    requires { pos 0 <ℤ w }
{
    let p = P3 {
        x: i128::from(x),
        y: i128::from(y),
        z: i128::from(z),
        w: i128::from(w),
    };
    if on_edge3(s, &p) {
        "edge"
    } else if odd3(s, &p) {
        "odd"
    } else {
        "even"
    }
}

#[test]
fn a_tetrahedron(rt: HostRuntime) -> Result<(), Fail> {
    const FINE: i64 = 1_000_000_000_000_000_000;
    let s = tetrahedron(rt.alloc())?;
    for (x, y, z, w, want) in [
        // in the column of the tip
        (1i64, 1i64, -1i64, 1i64, "even"),
        (1, 1, 0, 1, "edge"),
        (1, 1, 1, 1, "odd"),
        (1, 1, 5, 1, "even"),
        // in the column of the middle of the edge from the first corner to the tip
        (1, 1, -1, 2, "even"),
        (1, 1, 1, 2, "odd"),
        (1, 1, 4, 2, "edge"),
        (1, 1, 6, 2, "even"),
        // in the columns of edges of the floor
        (2, 0, 1, 1, "even"),
        (0, 2, -1, 1, "even"),
        (2, 2, 5, 1, "even"),
        // beside
        (-1, 1, 1, 1, "even"),
        (5, 5, 1, 1, "even"),
        // on planes, beside the faces
        (9, -9, 0, 1, "edge"),
        (7, -1, -4, 1, "edge"),
        (-1, 7, -4, 1, "edge"),
        (4, 4, -8, 1, "edge"),
        // near the tip
        (FINE, FINE, 4 * FINE - 1, FINE, "odd"),
        (FINE, FINE, 4 * FINE, FINE, "edge"),
        (FINE, FINE, 4 * FINE + 1, FINE, "even"),
    ] {
        assert!(rt; w > 0);
        assert_eq!(rt;
            word_over(&s, x, y, z, w),
            want,
            "at ({x}, {y}, {z}) over {w}"
        );
    }
    Ok(())
}
