//! The notes of one disc and of a tetrahedron, and which point a note names where several would do or a mask has none.
use bc_cover::cover;
use bc_notes::*;
use bc_num::{P2, P3};
use bc_text::{Mark, Note, Spot};
use std::test::Fail;

fn own_flat(note: &Note) -> Option<P2> {
    match note.mark {
        Mark::Own(Spot::Flat(p)) => Some(p),
        _ => None,
    }
}

fn out_flat(note: &Note) -> Option<P2> {
    match note.mark {
        Mark::Out(Spot::Flat(p)) => Some(p),
        _ => None,
    }
}

fn own_solid(note: &Note) -> Option<P3> {
    match note.mark {
        Mark::Own(Spot::Solid(p)) => Some(p),
        _ => None,
    }
}

fn out_solid(note: &Note) -> Option<P3> {
    match note.mark {
        Mark::Out(Spot::Solid(p)) => Some(p),
        _ => None,
    }
}

fn is_out_undecided(note: &Note) -> bool {
    match note.mark {
        Mark::OutUndecided => true,
        _ => false,
    }
}

// The cut is node 1, and behind the meet and the box the literal is node 4. Its one mask has no point.
#[test]
fn notes_of_one_disc(rt: HostRuntime) -> Result<(), Fail> {
    let terms = cover(rt.alloc(), &[1], &[0], 1).map_err(|_| "memory")?;
    let inner = P2 { x: 2, y: -2, w: 1 };
    let inside = [Shown {
        mask: 1,
        spot: Some(Spot::Flat(inner)),
    }];
    let outside = [Shown {
        mask: 0,
        spot: None,
    }];
    let notes = notes_of(rt.alloc(), &inside, &outside, terms.as_slice(), 1).map_err(|_| "memory")?;
    assert_eq!(rt; notes.len(), 2);
    assert_eq!(rt; notes.as_slice()[0].place, 1);
    assert_eq!(rt; own_flat(&notes.as_slice()[0]), Some(inner));
    assert_eq!(rt; notes.as_slice()[1].place, 4);
    assert!(rt; is_out_undecided(&notes.as_slice()[1]));
    Ok(())
}

// Of the tetrahedron with the corners (0, 0, 0), (1, 0, 0), (0, 1, 0) and (0, 0, 1) the planes are z = 0, y = 0, x = 0 and the
// slanted one, which is taken away: one term, whose literals are nodes 4 to 7.
#[test]
fn notes_of_tetrahedron(rt: HostRuntime) -> Result<(), Fail> {
    let inner = P3 {
        x: 1,
        y: 1,
        z: 1,
        w: 8,
    };
    let inside = [Shown {
        mask: 0b0111,
        spot: Some(Spot::Solid(inner)),
    }];
    let below = [
        P3 {
            x: 1,
            y: 1,
            z: -1,
            w: 4,
        },
        P3 {
            x: 1,
            y: -1,
            z: 1,
            w: 4,
        },
        P3 {
            x: -1,
            y: 1,
            z: 1,
            w: 4,
        },
        P3 {
            x: 1,
            y: 1,
            z: 1,
            w: 1,
        },
    ];
    let outside = [
        Shown {
            mask: 0b0110,
            spot: Some(Spot::Solid(below[0])),
        },
        Shown {
            mask: 0b0101,
            spot: Some(Spot::Solid(below[1])),
        },
        Shown {
            mask: 0b0011,
            spot: Some(Spot::Solid(below[2])),
        },
        Shown {
            mask: 0b1111,
            spot: Some(Spot::Solid(below[3])),
        },
    ];
    let terms = cover(rt.alloc(), &[0b0111], &[0b0110, 0b0101, 0b0011, 0b1111], 4).map_err(
        |_| "memory",
    )?;
    let notes = notes_of(rt.alloc(), &inside, &outside, terms.as_slice(), 4).map_err(|_| "memory")?;
    assert_eq!(rt; notes.len(), 5);
    assert_eq!(rt; notes.as_slice()[0].place, 1);
    assert_eq!(rt; own_solid(&notes.as_slice()[0]), Some(inner));
    for i in 0..4usize {
        let note = &notes.as_slice()[i + 1];
        assert_eq!(rt; note.place, i as u128 + 4);
        assert_eq!(rt; out_solid(note), Some(below[i]));
    }
    Ok(())
}

// Each of the outside masks would do for the one literal: the point with the smaller denominator is named.
#[test]
fn plainer_point_is_named(rt: HostRuntime) -> Result<(), Fail> {
    let terms = cover(rt.alloc(), &[1], &[0, 2], 2).map_err(|_| "memory")?;
    let inside = [Shown {
        mask: 1,
        spot: Some(Spot::Flat(P2 { x: 2, y: -2, w: 1 })),
    }];
    let plain = P2 { x: 9, y: 6, w: 2 };
    let outside = [
        Shown {
            mask: 0,
            spot: Some(Spot::Flat(P2 { x: 31, y: 17, w: 6 })),
        },
        Shown {
            mask: 2,
            spot: Some(Spot::Flat(plain)),
        },
    ];
    let notes = notes_of(rt.alloc(), &inside, &outside, terms.as_slice(), 2).map_err(|_| "memory")?;
    assert_eq!(rt; notes.len(), 2);
    assert_eq!(rt; out_flat(&notes.as_slice()[1]), Some(plain));
    Ok(())
}

fn shown_if(has_point: bool, mask: u64, p: P2) -> Shown {
    Shown {
        mask,
        spot: if has_point { Some(Spot::Flat(p)) } else { None },
    }
}

// Bit 2 tells nothing: the one term has the literals 0 and 1. For its own point each inside mask will do, for each of its
// literals two of the outside masks: 0b010 and 0b110 for literal 0. One of each two has a point, first always the first and
// then always the second, so once a named mask has none: then it is the other's.
#[test]
fn point_of_another_mask_is_named(rt: HostRuntime) -> Result<(), Fail> {
    let terms = cover(
        rt.alloc(),
        &[0b011, 0b111],
        &[0b010, 0b110, 0b001, 0b101],
        3,
    )
    .map_err(|_| "memory")?;
    let inner = [P2 { x: 1, y: 1, w: 1 }, P2 { x: 2, y: 1, w: 3 }];
    let outer = [
        P2 { x: 3, y: 1, w: 2 },
        P2 { x: 4, y: 1, w: 1 },
        P2 { x: 5, y: 1, w: 1 },
        P2 { x: 6, y: 1, w: 2 },
    ];
    for k in 0..2usize {
        let inside = [
            shown_if(k == 0, 0b011, inner[0]),
            shown_if(k == 1, 0b111, inner[1]),
        ];
        let outside = [
            shown_if(k == 0, 0b010, outer[0]),
            shown_if(k == 1, 0b110, outer[1]),
            shown_if(k == 0, 0b001, outer[2]),
            shown_if(k == 1, 0b101, outer[3]),
        ];
        let notes = notes_of(rt.alloc(), &inside, &outside, terms.as_slice(), 3).map_err(
            |_| "memory",
        )?;
        assert_eq!(rt; notes.len(), 3);
        assert_eq!(rt; own_flat(&notes.as_slice()[0]), Some(inner[k]));
        assert_eq!(rt; out_flat(&notes.as_slice()[1]), Some(outer[k]));
        assert_eq!(rt; out_flat(&notes.as_slice()[2]), Some(outer[k + 2]));
    }
    Ok(())
}
