//! The faces of a mesh, from the lines behind its vertices. A line says how many corners there are, then the corners,
//! and then at most four words that are passed over. The vertices are read in `vertices`.
ghost use Rattle.std.specs.Prelude.{◌≡◌, ◌+◌, ◌≤◌, ◌^◌, length, drop, OnOk};
ghost use Rattle.bc_lex.specs.Words.{after_plain};
ghost use Rattle.bc_lex.specs.Left.{plain_left};
ghost use Rattle.bc_off.specs.Answers.{Gives};
ghost use Rattle.bc_off.specs.Left.{rows_left, end_left, row_at, after_words, IsBehind};
ghost use Rattle.bc_off.specs.Faces.{corners, place, places, face, faces};

use crate::entries::{check_end, place_of_next, read_number};
use crate::fault::OffFault;
use crate::rows::next_row;
use bc_lex::{Lines, Words};
use bc_num::List;
use bc_solid::Face;
use std::alloc::Global;

// The next word as a number of corners.
fn read_corners(words: &mut Words<'_>) -> Result<u32, OffFault>
    requires { length words.old.text ≤ 2 ^ 20 }
    ensures value { result ≡ corners words.old.line (words.old.nth + 1) (plain_left words.old) }
    ensures place { words.new ≡ after_plain words.old }
{
    let (line, word) = place_of_next(words);
    let value = read_number(words)?;
    if value < 3 {
        return Err(OffFault::ShortFace { line, word });
    }
    if value > 64 {
        return Err(OffFault::TooMany { line, word });
    }
    Ok(value.unsigned_abs() as u32)
}

// The next word as the number of one of `vertices` vertices.
fn read_place(words: &mut Words<'_>, vertices: u32) -> Result<u32, OffFault>
    requires { length words.old.text ≤ 2 ^ 20 }
    ensures value { result ≡ place words.old.line (words.old.nth + 1) vertices (plain_left words.old) }
    ensures place { words.new ≡ after_plain words.old }
{
    let (line, word) = place_of_next(words);
    let value = read_number(words)?;
    if value < 0 || value >= i64::from(vertices) {
        return Err(OffFault::BadIndex { line, word });
    }
    Ok(value.unsigned_abs() as u32)
}

// The vertices that the next `count` words say.
fn read_places(
    alloc: Global,
    words: &mut Words<'_>,
    count: u32,
    vertices: u32,
) -> Result<Face, OffFault>
    requires { length words.old.text ≤ 2 ^ 20 }
    ensures value { Gives result (places words.old.line (words.old.nth + 1) vertices count (plain_left words.old)) }
    ensures behind { OnOk result (IsBehind count words.old words.new) }
{
    let mut face = Face::new(alloc);
    for _ in 0..count {
        face.push(read_place(words, vertices)?)?;
    }
    Ok(face)
}

// Passes over the next four words, as far as there are so many.
fn pass_free(words: &mut Words<'_>)
    ensures { words.new ≡ after_words 4 words.old }
{
    for _ in 0..4_u32 {
        words.next();
    }
}

// The face that all words of a line say.
fn read_face(alloc: Global, words: Words<'_>, vertices: u32) -> Result<Face, OffFault>
    requires small { length words.text ≤ 2 ^ 20 }
    requires first { words.nth ≡ 0 }
    ensures { Gives result (face vertices (row_at words.entry)) }
{
    let mut words = words;
    let corners = read_corners(&mut words)?;
    let face = read_places(alloc, &mut words, corners, vertices)?;
    pass_free(&mut words);
    check_end(&words)?;
    Ok(face)
}

/// The faces on the next `count` lines that have words, in a mesh of `vertices` vertices.
///
/// # Errors
/// The first fault of these lines, or `Memory` where there is none left.
pub fn read_faces(
    alloc: Global,
    lines: &mut Lines<'_>,
    count: u32,
    vertices: u32,
) -> Result<List<Face>, OffFault>
    requires { length lines.old.text ≤ 2 ^ 20 }
    ensures value { Gives result (faces (end_left lines.old) vertices count (rows_left lines.old)) }
    ensures rest { OnOk result (rows_left lines.new ≡ drop count (rows_left lines.old)) }
    ensures text { OnOk result (lines.new.text ≡ lines.old.text) }
    ensures end { OnOk result (end_left lines.new ≡ end_left lines.old) }
{
    let mut faces = List::new(alloc);
    for _ in 0..count {
        let Some(words) = next_row(lines) else {
            return Err(OffFault::Short {
                line: lines.number() + 1,
                word: 0,
            });
        };
        faces.push(read_face(alloc, words, vertices)?)?;
    }
    Ok(faces)
}
