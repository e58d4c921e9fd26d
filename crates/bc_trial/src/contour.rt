//! The plate with holes as a contour text.
ghost use Rattle.std.specs.Prelude.{◌≡◌, ◌≤◌, ◌<◌, ◌^◌, ◌++◌, OnOk, IfOk};
ghost use Rattle.std.specs.List.{flat_map};
ghost use Rattle.bc_trial.specs.Texts.{move as move_text, rectangle, hole, ended, contour_text};

use crate::pieces::{put, put_number};
use bc_num::{List, Memory};
use std::alloc::Global;

/// The greatest number of holes of a generated plate.
pub const MOST_CONTOUR: u32 = 10;

/// The contour text of a plate with `n` round holes, 1 to `MOST_CONTOUR`: a rectangle of 20 n by 20, and in the middle of
/// each square of 20 by 20 a circle of radius 5. `Memory` where there is no room for it.
pub fn trial_contour(alloc: Global, n: u32) -> Result<List<u8>, Memory>
    requires least { 1 ≤ n }
    requires most { n ≤ MOST_CONTOUR }
    ensures { IfOk result (λ bytes. bytes ≡ contour_text n) }
{
    let mut text = Vec::new(alloc);
    put_rectangle(&mut text, n)?;
    for i in 0..n {
        put_hole(&mut text, i)?;
    }
    put(&mut text, b"M30\n")?;
    Ok(List::from_vec(text))
}

// A word for the motion, and the place to move to.
fn put_move(text: &mut Vec<u8>, motion: &[u8], x: u32, y: u32) -> Result<(), Memory>
    ensures { OnOk result (text.new.items ≡ text.old.items ++ move_text motion.now x y) }
{
    put(text, motion)?;
    put(text, b" X")?;
    put_number(text, x)?;
    put(text, b" Y")?;
    put_number(text, y)
}

// A move to the end of its line.
fn put_line(text: &mut Vec<u8>, motion: &[u8], x: u32, y: u32) -> Result<(), Memory>
    ensures { OnOk result (text.new.items ≡ text.old.items ++ ended (move_text motion.now x y)) }
{
    put_move(text, motion, x, y)?;
    put(text, b"\n")
}

// The rectangle of a plate with `n` holes.
fn put_rectangle(text: &mut Vec<u8>, n: u32) -> Result<(), Memory>
    requires { n < 2 ^ 16 }
    ensures { OnOk result (text.new.items ≡ text.old.items ++ flat_map ended (rectangle n)) }
{
    let width = 20 * n;
    put_line(text, b"G00", 0, 0)?;
    put_line(text, b"G01", width, 0)?;
    put_line(text, b"G01", width, 20)?;
    put_line(text, b"G01", 0, 20)?;
    put_line(text, b"G01", 0, 0)
}

// Hole `i`.
fn put_hole(text: &mut Vec<u8>, i: u32) -> Result<(), Memory>
    requires { i < 2 ^ 16 }
    ensures { OnOk result (text.new.items ≡ text.old.items ++ flat_map ended (hole i)) }
{
    let x = 20 * i + 15;
    put_line(text, b"G00", x, 10)?;
    put_move(text, b"G03", x, 10)?;
    put(text, b" I-5 J0\n")
}
