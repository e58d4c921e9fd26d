//! Which sets of discs are listed with a region: of discs round one centre, of discs that touch, and of a disc across
//! a line; and which masks a lean list has.
ghost use Rattle.std.specs.Prelude.{◌≤◌, length, All};
ghost use Rattle.bc_space.specs.Lines.{IsSizedLine};
ghost use Rattle.bc_space.specs.Discs.{IsSizedDisc};

use bc_cells::cells;
use bc_discs::*;
use bc_num::{Box2, Disc2, V2};
use bc_space::{Flat, Line2};
use std::alloc::Global;
use std::test::Fail;

const BOX: Box2 = Box2 {
    x0: -9,
    y0: -9,
    x1: 9,
    y1: 9,
};

#[test]
fn nine_rings_of_eight_discs(rt: HostRuntime) -> Result<(), Fail> {
    let c = V2 { x: 0, y: 0 };
    let discs = [
        Disc2 { c, r2: 1 },
        Disc2 { c, r2: 4 },
        Disc2 { c, r2: 9 },
        Disc2 { c, r2: 16 },
        Disc2 { c, r2: 25 },
        Disc2 { c, r2: 36 },
        Disc2 { c, r2: 49 },
        Disc2 { c, r2: 64 },
    ];
    let regions = cells::<Flat>(rt.alloc(), &BOX, &[])?;
    let found = candidates(rt.alloc(), &BOX, &[], &regions, &discs)?;
    assert_eq!(rt; found.len(), 9);
    for (i, mask) in [0, 128, 192, 224, 240, 248, 252, 254, 255]
        .iter()
        .enumerate()
    {
        assert!(rt; i < found.len());
        assert_eq!(rt; found.get(i).mask, *mask);
    }
    Ok(())
}

#[test]
fn two_discs_that_touch(rt: HostRuntime) -> Result<(), Fail> {
    let lines = [];
    let regions = cells::<Flat>(rt.alloc(), &BOX, &lines)?;
    for (x, masks) in [(6, [0, 1, 2]), (2, [0, 1, 3])] {
        let discs = [
            Disc2 {
                c: V2 { x: 0, y: 0 },
                r2: 16,
            },
            Disc2 {
                c: V2 { x, y: 0 },
                r2: 4,
            },
        ];
        let found = candidates(rt.alloc(), &BOX, &lines, &regions, &discs)?;
        assert!(rt; found.len() == 3);
        let found = [found.get(0).mask, found.get(1).mask, found.get(2).mask];
        assert_eq!(rt; found, masks, "the second centre is ({x}, 0)");
    }
    Ok(())
}

#[test]
fn a_disc_across_a_line(rt: HostRuntime) -> Result<(), Fail> {
    let lines = [Line2 { a: 1, b: 0, d: -4 }];
    let regions = cells::<Flat>(rt.alloc(), &BOX, &lines)?;
    for (x, r2, masks) in [(-6, 4, [0, 2, 1]), (4, 145, [0, 2, 3])] {
        let discs = [Disc2 {
            c: V2 { x, y: 0 },
            r2,
        }];
        let found = candidates(rt.alloc(), &BOX, &lines, &regions, &discs)?;
        assert!(rt; found.len() == 3);
        assert!(rt; found.get(1).region == 0 && found.get(2).region == 1);
        let found = [found.get(0).mask, found.get(1).mask, found.get(2).mask];
        assert_eq!(rt; found, masks, "the centre is ({x}, 0)");
    }
    Ok(())
}

fn lean_masks(alloc: Global, lines: &[Line2], discs: &[Disc2]) -> Result<Vec<u64>, Fail>
    requires few_lines { length lines.now ≤ 40 }
    requires few_discs { length discs.now ≤ 10 }
    requires lines_sized { All IsSizedLine lines.now }
    requires discs_sized { All IsSizedDisc discs.now }
{
    let regions = cells::<Flat>(alloc, &BOX, lines)?;
    let found = lean_candidates(alloc, &BOX, lines, &regions, discs)?;
    let mut masks = Vec::new(alloc);
    for candidate in found.as_slice() {
        masks.push(candidate.mask)?;
    }
    masks.sort()?;
    Ok(masks)
}

// The first disc is across both axes, and ends before the corner where they meet. The next two are across one axis: to the
// right of it the first of them is within the second, to the left the second within the first. Of the last two each is on
// one side.
#[test]
fn a_lean_candidate_has_a_point(rt: HostRuntime) -> Result<(), Fail> {
    let right = Line2 { a: 1, b: 0, d: 0 };
    let upper = Line2 { a: 0, b: 1, d: 0 };
    let corner = Disc2 {
        c: V2 { x: -2, y: -2 },
        r2: 5,
    };
    let masks = lean_masks(rt.alloc(), &[right, upper], &[corner])?;
    assert_eq!(rt; masks.as_slice(), [0, 1, 2, 3, 4, 5, 6].as_slice());
    let crossing = [
        Disc2 {
            c: V2 { x: -1, y: 0 },
            r2: 4,
        },
        Disc2 {
            c: V2 { x: 0, y: 0 },
            r2: 3,
        },
    ];
    let masks = lean_masks(rt.alloc(), &[right], &crossing)?;
    assert_eq!(rt; masks.as_slice(), [0, 1, 2, 5, 6, 7].as_slice());
    let apart = [
        Disc2 {
            c: V2 { x: -5, y: 0 },
            r2: 4,
        },
        Disc2 {
            c: V2 { x: 5, y: 0 },
            r2: 4,
        },
    ];
    let masks = lean_masks(rt.alloc(), &[right], &apart)?;
    assert_eq!(rt; masks.as_slice(), [0, 1, 2, 5].as_slice());
    Ok(())
}
