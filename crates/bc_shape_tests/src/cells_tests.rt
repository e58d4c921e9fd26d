//! The regions of a box without lines and with three lines, by their masks and some of their corners, and a region
//! that a line splits in two.
use bc_cells::*;
use bc_num::{Box2, P2};
use bc_space::{Flat, Line2};
use std::test::Fail;

const BOX: Box2 = Box2 {
    x0: -5,
    y0: -5,
    x1: 5,
    y1: 5,
};

#[test]
fn seven_cells_of_three_lines(rt: HostRuntime) -> Result<(), Fail> {
    let lines = [
        Line2 { a: 0, b: 1, d: 0 },
        Line2 { a: -1, b: 0, d: 0 },
        Line2 { a: 1, b: 1, d: 1 },
    ];
    let found = cells::<Flat>(rt.alloc(), &BOX, &lines)?;
    assert!(rt; found.len() == 7);
    for (i, mask) in [0, 1, 2, 3, 4, 5, 7].iter().enumerate() {
        assert!(rt; i < found.len());
        assert_eq!(rt; found.get(i).mask, *mask);
    }
    let corners = &found.get(1).corners;
    assert!(rt; corners.len() == 3);
    for (x, y) in [(0, 0), (1, 0), (0, 1)] {
        let corner = P2 { x, y, w: 1 };
        assert!(rt; corners.as_slice().contains(&corner), "{corner:?}");
    }
    Ok(())
}

#[test]
fn one_cell_of_a_box_alone(rt: HostRuntime) -> Result<(), Fail> {
    let found = cells::<Flat>(rt.alloc(), &BOX, &[])?;
    assert!(rt; found.len() == 1);
    assert_eq!(rt; found.get(0).mask, 0);
    assert_eq!(rt; found.get(0).corners.len(), 4);
    Ok(())
}

#[test]
fn box_split_by_a_line(rt: HostRuntime) -> Result<(), Fail> {
    let lines = [Line2 { a: 0, b: 1, d: 0 }];
    let found = cells::<Flat>(rt.alloc(), &BOX, &[])?;
    assert!(rt; found.len() == 1);
    let parts = split::<Flat>(rt.alloc(), &BOX, &lines, 0, found.get(0))?;
    assert!(rt; parts.below.is_some() && parts.above.is_some());
    if let Some(above) = &parts.above {
        assert_eq!(rt; above.mask, 1);
        assert_eq!(rt; above.corners.len(), 4);
    }
    if let Some(below) = &parts.below {
        assert_eq!(rt; below.mask, 0);
        assert_eq!(rt; below.corners.len(), 4);
        for (x, y) in [(-5, -5), (5, -5), (-5, 0), (5, 0)] {
            let corner = P2 { x, y, w: 1 };
            assert!(rt; below.corners.as_slice().contains(&corner), "{corner:?}");
        }
    }
    Ok(())
}
