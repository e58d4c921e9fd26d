//! The mesh that a whole text says, or its first fault: the header, the vertices and the faces in turn, and then no
//! line with words. `specs/Off` says what is right.
ghost use Rattle.std.specs.Prelude.{◌≡◌, ◌≤◌, ◌^◌, length};
ghost use Rattle.bc_off.specs.Left.{rows_left};
ghost use Rattle.bc_off.specs.Off.{no_rows, Reads};

use crate::entries::place_of_next;
use crate::faces::read_faces;
use crate::fault::OffFault;
use crate::header::read_header;
use crate::rows::next_row;
use crate::vertices::read_vertices;
use bc_lex::Lines;
use bc_solid::RawMesh;
use std::alloc::Global;

// Nothing; `Extra` where a line with words is left.
fn check_rest(lines: &mut Lines<'_>) -> Result<(), OffFault>
    requires { length lines.old.text ≤ 2 ^ 20 }
    ensures { result ≡ no_rows (rows_left lines.old) }
{
    match next_row(lines) {
        Some(words) => {
            let (line, word) = place_of_next(&words);
            Err(OffFault::Extra { line, word })
        }
        None => Ok(()),
    }
}

/// The mesh that a text of at most 2^20 bytes says, in Geomview's OFF with this project's profile: the word `OFF` and the
/// counts of vertices, faces and edges, then one line for each vertex and one for each face. Coordinates are whole numbers
/// from -1023 to 1023, vertices count from 0, and a face has 3 to 64 corners. There are at most 1,024 vertices and 2,048
/// faces; the count of edges is not compared. Each line ends at its first `#`, and lines without words are skipped.
///
/// # Errors
/// The first fault of the text, exactly where it says no mesh; or `Memory` where there is none left.
pub fn read_off(alloc: Global, text: &[u8]) -> Result<RawMesh, OffFault>
    requires { length text.now ≤ 2 ^ 20 }
    ensures { Reads result text.now }
{
    let mut lines = Lines::new(text);
    let counts = read_header(&mut lines)?;
    let points = read_vertices(alloc, &mut lines, counts.vertices)?;
    let faces = read_faces(alloc, &mut lines, counts.faces, counts.vertices)?;
    check_rest(&mut lines)?;
    Ok(RawMesh { points, faces })
}
