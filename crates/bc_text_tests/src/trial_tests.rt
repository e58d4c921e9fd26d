//! The first trial texts byte for byte; and how many faces, planes, elements, lines and discs trial texts have once
//! they are read, from the least to the greatest.
ghost use Rattle.std.specs.Prelude.{◌≤◌};

use bc_gcode::read_contours;
use bc_natural::{curves, planes};
use bc_off::read_off;
use bc_solid::{check_contours, check_mesh};
use bc_trial::*;
use std::alloc::Global;
use std::test::Fail;

const STAIR: &str =
    "OFF 8 6 0\n0 0 0\n0 0 1\n1 0 1\n1 0 0\n0 10 0\n0 10 1\n1 10 1\n1 10 0\n4 0 1 2 3\n4 4 5 6 7\n4 0 1 5 4\n4 1 2 6 5\n4 2 3 7 6\n4 3 0 4 7\n";

const PLATE: &str =
    "G00 X0 Y0\nG01 X20 Y0\nG01 X20 Y20\nG01 X0 Y20\nG01 X0 Y0\nG00 X15 Y10\nG03 X15 Y10 I-5 J0\nM30\n";

#[test]
fn the_first_texts(rt: HostRuntime) -> Result<(), Fail> {
    let alloc = rt.alloc();
    assert_eq!(rt; trial_off(alloc, 1)?.as_slice(), STAIR.as_bytes());
    assert_eq!(rt; trial_contour(alloc, 1)?.as_slice(), PLATE.as_bytes());
    Ok(())
}

// The numbers of faces and planes of a stair.
fn stair(alloc: Global, n: u32) -> Result<(usize, usize), Fail>
    requires least { 1 ≤ n }
    requires most { n ≤ MOST_OFF }
{
    let text = trial_off(alloc, n)?;
    if text.len() > 1 << 20 {
        return Err(Fail::from("too long"));
    }
    let solid = check_mesh(alloc, read_off(alloc, text.as_slice())?)?;
    Ok((solid.faces(), planes(alloc, &solid)?.len()))
}

// The numbers of elements, lines and discs of a plate.
fn plate(alloc: Global, n: u32) -> Result<(usize, usize, usize), Fail>
    requires least { 1 ≤ n }
    requires most { n ≤ MOST_CONTOUR }
{
    let text = trial_contour(alloc, n)?;
    if text.len() > 1 << 20 {
        return Err(Fail::from("too long"));
    }
    let profile = check_contours(alloc, read_contours(alloc, text.as_slice())?)?;
    let table = curves(alloc, &profile)?;
    Ok((profile.elements(), table.lines(), table.discs()))
}

#[test]
fn stairs_and_plates_are_read(rt: HostRuntime) -> Result<(), Fail> {
    let alloc = rt.alloc();
    assert_eq!(rt; stair(alloc, 1)?, (6, 6));
    assert_eq!(rt; stair(alloc, 2)?, (8, 8));
    assert_eq!(rt; stair(alloc, MOST_OFF)?, (40, 40));
    assert_eq!(rt; plate(alloc, 1)?, (5, 4, 1));
    assert_eq!(rt; plate(alloc, 4)?, (8, 4, 4));
    assert_eq!(rt; plate(alloc, MOST_CONTOUR)?, (14, 4, 10));
    Ok(())
}
