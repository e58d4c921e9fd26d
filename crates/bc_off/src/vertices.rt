//! The vertices of a mesh, from the lines behind the header: three coordinates on each line. The faces behind them are
//! read in `faces`.
ghost use Rattle.std.specs.Prelude.{◌≡◌, ◌≤◌, ◌^◌, length, drop, OnOk};
ghost use Rattle.bc_off.specs.Answers.{Gives};
ghost use Rattle.bc_off.specs.Left.{rows_left, end_left, row_at};
ghost use Rattle.bc_off.specs.Vertices.{vertex, vertices};

use crate::entries::{check_end, read_coordinate};
use crate::fault::OffFault;
use crate::rows::next_row;
use bc_lex::{Lines, Words};
use bc_num::{List, V3};
use std::alloc::Global;

// The vertex that all words of a line say.
fn read_vertex(words: Words<'_>) -> Result<V3, OffFault>
    requires small { length words.text ≤ 2 ^ 20 }
    requires first { words.nth ≡ 0 }
    ensures { result ≡ vertex (row_at words.entry) }
{
    let mut words = words;
    let x = read_coordinate(&mut words)?;
    let y = read_coordinate(&mut words)?;
    let z = read_coordinate(&mut words)?;
    check_end(&words)?;
    Ok(V3 { x, y, z })
}

/// The vertices on the next `count` lines that have words.
///
/// # Errors
/// The first fault of these lines, or `Memory` where there is none left.
pub fn read_vertices(alloc: Global, lines: &mut Lines<'_>, count: u32) -> Result<List<V3>, OffFault>
    requires { length lines.old.text ≤ 2 ^ 20 }
    ensures value { Gives result (vertices (end_left lines.old) count (rows_left lines.old)) }
    ensures rest { OnOk result (rows_left lines.new ≡ drop count (rows_left lines.old)) }
    ensures text { OnOk result (lines.new.text ≡ lines.old.text) }
    ensures end { OnOk result (end_left lines.new ≡ end_left lines.old) }
{
    let mut points = List::new(alloc);
    for _ in 0..count {
        let Some(words) = next_row(lines) else {
            return Err(OffFault::Short {
                line: lines.number() + 1,
                word: 0,
            });
        };
        points.push(read_vertex(words)?)?;
    }
    Ok(points)
}
