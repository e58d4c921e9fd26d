//! The front of an OFF text: the word `OFF`, and how many vertices and faces are announced. The vertices and faces
//! behind it are read in `vertices` and `faces`.
ghost use Rattle.std.specs.Prelude.{◌≡◌, ◌+◌, ◌≤◌, ◌^◌, length};
ghost use Rattle.bc_num.specs.Whole.{whole};
ghost use Rattle.bc_lex.specs.Words.{after_plain};
ghost use Rattle.bc_lex.specs.Left.{plain_left};
ghost use Rattle.bc_off.specs.Left.{rows_left, end_left};
ghost use Rattle.bc_off.specs.Header.{is_off, checked_count, count, limited, counts, behind_off, header, before_rows};

use crate::entries::{check_end, place_of_next};
use crate::fault::OffFault;
use crate::rows::next_row;
use bc_lex::{Lines, Words};
use bc_num::read_whole;

/// How many vertices and faces are announced.
#[derive(Clone, Copy, Debug, PartialEq, Eq)]
pub struct Counts {
    pub vertices: u32,
    pub faces: u32,
}

// The count that a word at a place says.
fn count_value(text: &[u8], line: u32, word: u32) -> Result<u64, OffFault>
    ensures { result ≡ checked_count line word (whole text.now) }
{
    match read_whole(text) {
        Ok(value) if value >= 0 => Ok(value.unsigned_abs()),
        _ => Err(OffFault::BadCount { line, word }),
    }
}

// The next word as a count.
fn read_count(words: &mut Words<'_>) -> Result<u64, OffFault>
    requires { length words.old.text ≤ 2 ^ 20 }
    ensures value { result ≡ count words.old.line (words.old.nth + 1) (plain_left words.old) }
    ensures place { words.new ≡ after_plain words.old }
{
    let (line, word) = place_of_next(words);
    match words.next() {
        Some(next) => count_value(next.text, line, word),
        None => Err(OffFault::BadCount { line, word }),
    }
}

// The next word as a count of at most `most`.
fn read_limited(words: &mut Words<'_>, most: u32) -> Result<u32, OffFault>
    requires { length words.old.text ≤ 2 ^ 20 }
    ensures value { result ≡ limited words.old.line (words.old.nth + 1) most (plain_left words.old) }
    ensures place { words.new ≡ after_plain words.old }
{
    let (line, word) = place_of_next(words);
    let count = read_count(words)?;
    if count > u64::from(most) {
        return Err(OffFault::TooMany { line, word });
    }
    Ok(count as u32)
}

// The counts that the words left of a row say: of vertices, faces and edges.
fn read_counts(words: Words<'_>) -> Result<Counts, OffFault>
    requires { length words.text ≤ 2 ^ 20 }
    ensures { result ≡ counts words.entry.line (words.entry.nth + 1) (plain_left words.entry) }
{
    let mut words = words;
    let vertices = read_limited(&mut words, 1024)?;
    let faces = read_limited(&mut words, 2048)?;
    read_count(&mut words)?;
    check_end(&words)?;
    Ok(Counts { vertices, faces })
}

// Whether a word is `OFF`.
fn is_name(text: &[u8]) -> bool
    ensures { result ≡ is_off text.now }
{
    match text {
        [b'O', b'F', b'F'] => true,
        _ => false,
    }
}

// The counts behind `OFF`: on the same line, or on the next that has words.
fn read_behind_name(lines: &mut Lines<'_>, words: Words<'_>) -> Result<Counts, OffFault>
    requires text { length lines.old.text ≤ 2 ^ 20 }
    requires words { length words.text ≤ 2 ^ 20 }
    requires second { words.nth ≡ 1 }
    ensures value { before_rows (rows_left lines.new) result ≡ behind_off (end_left lines.old) words.entry.line (plain_left words.entry) (rows_left lines.old) }
    ensures text { lines.new.text ≡ lines.old.text }
    ensures end { end_left lines.new ≡ end_left lines.old }
{
    if !words.is_ended() {
        return read_counts(words);
    }
    match next_row(lines) {
        Some(words) => read_counts(words),
        None => Err(OffFault::Short {
            line: lines.number() + 1,
            word: 0,
        }),
    }
}

/// The counts of an OFF text, whose lines up to the counts are read.
///
/// # Errors
/// The first fault of these lines.
pub fn read_header(lines: &mut Lines<'_>) -> Result<Counts, OffFault>
    requires { length lines.old.text ≤ 2 ^ 20 }
    ensures value { before_rows (rows_left lines.new) result ≡ header (end_left lines.old) (rows_left lines.old) }
    ensures text { lines.new.text ≡ lines.old.text }
    ensures end { end_left lines.new ≡ end_left lines.old }
{
    let Some(mut words) = next_row(lines) else {
        return Err(OffFault::NotOff {
            line: lines.number() + 1,
            word: 0,
        });
    };
    let (line, word) = place_of_next(&words);
    match words.next() {
        Some(name) if is_name(name.text) => read_behind_name(lines, words),
        _ => Err(OffFault::NotOff { line, word }),
    }
}
