//! Which masks are inside and which outside: of half a disc, of a disc by two arcs, of a circle once and twice, and of
//! the cells of a tetrahedron.
ghost use Rattle.std.specs.Prelude.{◌≡◌, ◌≤◌, ◌<◌, ◌^◌, true, [], ◌∷◌, length, OnOk, IfOk, All};
ghost use Rattle.std.specs.List.{list_all};
ghost use Rattle.bc_solid.specs.Closed.{IsContour};
ghost use Rattle.bc_solid.specs.Contours.{is_drawn};
ghost use Rattle.bc_natural.specs.Limits.{AreFew};

use bc_cells::{Cell, cells};
use bc_classify::{Marked2, Split2, Split3, classify2, classify3};
use bc_discs::Candidate;
use bc_natural::{CurveTable, box3, curves, planes};
use bc_num::{Box2, List, Memory, V2, V3};
use bc_solid::{Element, Face, Profile, RawContours, RawMesh, Solid, check_contours, check_mesh};
use bc_space::{Flat, Solid3};
use std::alloc::Global;
use std::test::Fail;

const BOX: Box2 = Box2 {
    x0: -9,
    y0: -9,
    x1: 9,
    y1: 9,
};

const CENTRE: V2 = V2 { x: 0, y: 0 };

const LEFT: V2 = V2 { x: -5, y: 0 };

const RIGHT: V2 = V2 { x: 5, y: 0 };

fn profile_of(alloc: Global, elements: Vec<Element>) -> Result<Profile, Fail>
    requires closed { IsContour elements.items }
    requires drawn { list_all is_drawn elements.items ≡ true }
    requires few { length elements.items ≤ 2 ^ 20 }
{
    let contours = vec![in alloc; List::from_vec(elements)]?;
    let raw = RawContours {
        contours: List::from_vec(contours),
    };
    Ok(check_contours(alloc, raw)?)
}

// Adds a region with each set of discs.
fn add_sets(
    table: &CurveTable,
    mask: u64,
    region: usize,
    all: &mut List<Candidate>,
    count: usize,
) -> Result<(), Memory>
    requires few { AreFew table.now }
    requires place { region < count }
    requires old { All (λ k. k.region < count) all.old }
    ensures { OnOk result (All (λ k. k.region < count) all.new) }
{
    for set in 0..1u64 << table.discs() {
        all.push(Candidate {
            mask: mask | set << table.lines(),
            region,
            seen: None,
        })?;
    }
    Ok(())
}

fn each_set(
    alloc: Global,
    table: &CurveTable,
    regions: &List<Cell<Flat>>,
) -> Result<List<Candidate>, Memory>
    requires few { AreFew table.now }
    ensures { IfOk result (All (λ k. k.region < length regions.now)) }
{
    let mut all = List::new(alloc);
    for r in 0..regions.len() {
        add_sets(table, regions.get(r).mask, r, &mut all, regions.len())?;
    }
    Ok(all)
}

fn split_of(alloc: Global, s: &Profile) -> Result<Split2, Fail> {
    let table = curves(alloc, s)?;
    let lines = table.line_list(alloc)?;
    let regions = cells::<Flat>(alloc, &BOX, lines.as_slice())?;
    let all = each_set(alloc, &table, &regions)?;
    Ok(classify2(alloc, s, &table, &regions, &all)?)
}

fn has_masks(list: &List<Marked2>, masks: &[u64]) -> bool {
    list.len() == masks.len()
        && list
            .as_slice()
            .iter()
            .zip(masks)
            .all(|(marked, mask)| marked.mask == *mask)
}

// Its chord is an edge too.
#[test]
fn the_upper_half_of_a_disc(rt: HostRuntime) -> Result<(), Fail> {
    let elements = vec![in rt.alloc();
        Element::Arc {
            a: RIGHT,
            b: LEFT,
            c: CENTRE,
            ccw: true
        },
        Element::Edge { a: LEFT, b: RIGHT },
    ]?;
    let split = split_of(rt.alloc(), &profile_of(rt.alloc(), elements)?)?;
    assert!(rt; has_masks(&split.inside, &[3]));
    assert!(rt; has_masks(&split.outside, &[0, 2, 1]));
    Ok(())
}

// The two arcs have one disc, which each flips on another side of the chord.
#[test]
fn a_disc_of_two_arcs(rt: HostRuntime) -> Result<(), Fail> {
    let elements = vec![in rt.alloc();
        Element::Arc {
            a: RIGHT,
            b: LEFT,
            c: CENTRE,
            ccw: true
        },
        Element::Arc {
            a: LEFT,
            b: RIGHT,
            c: CENTRE,
            ccw: true
        },
    ]?;
    let split = split_of(rt.alloc(), &profile_of(rt.alloc(), elements)?)?;
    assert!(rt; has_masks(&split.inside, &[2, 3]));
    assert!(rt; has_masks(&split.outside, &[0, 1]));
    Ok(())
}

// A circle flips everywhere, and twice is not at all.
#[test]
fn a_circle_once_and_twice(rt: HostRuntime) -> Result<(), Fail> {
    let circle = Element::Arc {
        a: RIGHT,
        b: RIGHT,
        c: CENTRE,
        ccw: false,
    };
    let once = vec![in rt.alloc(); circle]?;
    let split = split_of(rt.alloc(), &profile_of(rt.alloc(), once)?)?;
    assert!(rt; has_masks(&split.inside, &[1]));
    assert!(rt; has_masks(&split.outside, &[0]));
    let twice = vec![in rt.alloc(); circle, circle]?;
    let split = split_of(rt.alloc(), &profile_of(rt.alloc(), twice)?)?;
    assert!(rt; has_masks(&split.inside, &[]));
    assert!(rt; has_masks(&split.outside, &[0, 1]));
    Ok(())
}

fn triangle(alloc: Global, a: u32, b: u32, c: u32) -> Result<Face, Fail>
    ensures { IfOk result (λ f. f ≡ a ∷ (b ∷ (c ∷ []))) }
{
    let mut face = Face::new(alloc);
    face.push(a)?;
    face.push(b)?;
    face.push(c)?;
    Ok(face)
}

// The planes of the faces are z = 0, x + y + z = 2, y = 0 and x = 0, in this order.
fn tetrahedron(alloc: Global) -> Result<Solid, Fail> {
    let points = vec![in alloc;
        V3 { x: 0, y: 0, z: 0 },
        V3 { x: 2, y: 0, z: 0 },
        V3 { x: 0, y: 2, z: 0 },
        V3 { x: 0, y: 0, z: 2 },
    ]?;
    let faces = vec![in alloc;
        triangle(alloc, 0, 2, 1)?,
        triangle(alloc, 1, 2, 3)?,
        triangle(alloc, 0, 1, 3)?,
        triangle(alloc, 0, 3, 2)?,
    ]?;
    let raw = RawMesh {
        points: List::from_vec(points),
        faces: List::from_vec(faces),
    };
    Ok(check_mesh(alloc, raw)?)
}

fn split3_of(alloc: Global, s: &Solid) -> Result<Split3, Fail> {
    let table = planes(alloc, s)?;
    let halves = table.plane_list(alloc)?;
    let all = cells::<Solid3>(alloc, &box3(s), halves.as_slice())?;
    Ok(classify3(alloc, s, &all)?)
}

// Inside is Above all planes but the second. Only Above the second alone there is no cell.
#[test]
fn fifteen_cells_of_a_tetrahedron(rt: HostRuntime) -> Result<(), Fail> {
    let split = split3_of(rt.alloc(), &tetrahedron(rt.alloc())?)?;
    assert_eq!(rt; split.inside.len(), 1);
    assert_eq!(rt; split.inside.get(0).mask, 0b1101);
    assert_eq!(rt; split.outside.len(), 14);
    for (i, mask) in [0u64, 1, 3, 4, 5, 6, 7, 8, 9, 10, 11, 12, 14, 15]
        .iter()
        .enumerate()
    {
        assert!(rt; i < split.outside.len());
        assert_eq!(rt; split.outside.get(i).mask, *mask);
    }
    Ok(())
}
