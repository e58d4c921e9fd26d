//! The contours of a text, or its first fault: line by line, `words` reads the block and `moves` does it, until a word
//! ends the program or the text ends. `specs/Gcode` says which contours a text leads to.
ghost use Rattle.std.specs.Prelude.{◌≡◌, ◌≤◌, ◌^◌, length, pos, None, []};
ghost use Rattle.bc_gcode.specs.Laws.{EndsWell};
ghost use Rattle.bc_gcode.specs.Gcode.{opening, finish, Gives, Reads};

use crate::fault::GFault;
use crate::moves::{close_contour, do_block};
use crate::program::Program;
use crate::words::read_block;
use bc_lex::Lines;
use bc_num::{List, V2};
use bc_solid::RawContours;
use std::alloc::Global;

// A program before its first block.
fn before_all(alloc: Global) -> Program
    ensures { result ≡ opening }
{
    Program {
        position: V2 { x: 0, y: 0 },
        motion: None,
        contour: List::new(alloc),
        contours: List::new(alloc),
        count: 0,
    }
}

// Ends a program: its contours, with the last one closed.
fn finished(alloc: Global, program: Program, line: u32) -> Result<RawContours, GFault>
    requires { EndsWell (finish line program) }
    ensures { Gives result (finish line program) }
{
    let mut program = program;
    close_contour(alloc, &mut program, line)?;
    Ok(RawContours {
        contours: program.contours,
    })
}

/// The contours that a text of at most 2^20 bytes leads to: those to which its blocks lead from the opening state. The
/// text is a program of RS274/NGC words in this project's profile.
///
/// # Errors
/// The first fault of the text, exactly where it leads to no contours; or `Memory` where there is none left.
pub fn read_contours(alloc: Global, text: &[u8]) -> Result<RawContours, GFault>
    requires { length text.now ≤ 2 ^ 20 }
    ensures { Reads result text.now }
{
    let mut lines = Lines::new(text);
    let mut program = before_all(alloc);
    while let Some(line) = lines.next() {
        let block = read_block(line)?;
        do_block(alloc, &mut program, &block, line.number)?;
        if block.ends {
            return finished(alloc, program, line.number);
        }
    }
    finished(alloc, program, lines.number() + 1)
}
