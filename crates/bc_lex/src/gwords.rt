//! The words of a contour line, each a letter with its number, one after another, or where no word begins. `lines`
//! gives the line. `specs/GWords` says what the next word is, and `words` cuts the lines of other texts.
ghost use Rattle.std.specs.Prelude.{◌≡◌, ◌-◌, ◌<◌, ◌≤◌, ◌^◌, length, IfOk, IfSome};
ghost use Rattle.bc_num.specs.Tokens.{is_letter};
ghost use Rattle.bc_num.specs.Words.{is_line_blank, is_ignored, capital, blanks};
ghost use Rattle.bc_lex.specs.Lines.{line};
ghost use Rattle.bc_lex.specs.GWords.{gap, found, FitsIn, line_start, next_word, after_word, seen};

use crate::lines::Line;
use bc_num::number_len;
use std::marker::Model;

/// A word of a contour line, after RS274/NGC: its letter as a capital, and the bytes of its number. It is the `nth` word
/// of the line with the number `line`, both counted from 1; `from` is where its number begins in the line's text.
#[derive(Clone, Copy, Debug)]
pub struct GWord<'a> {
    pub line: u32,
    pub nth: u32,
    pub from: usize,
    pub letter: u8,
    pub number: &'a [u8],
}

/// The bytes at a place of a line begin no word: the line's number, and the number that the word would have.
#[derive(Clone, Copy, Debug, PartialEq, Eq)]
pub struct BadAt {
    pub line: u32,
    pub nth: u32,
}

// What stands at the front of some bytes: no word any more, bytes that begin none, or a letter and, `skipped` bytes on, a
// number of `len` bytes.
#[derive(Clone, Copy)]
enum Front {
    Nothing,
    Bad,
    Item {
        letter: u8,
        skipped: usize,
        len: usize,
    },
}

/// The words of a contour line, one after another: RS274/NGC's words with this project's profile. Blanks and comments are
/// free between them, and the first `;` outside a comment ends them. Each is a slice of the line, and nothing is copied.
#[derive(Drop)]
pub struct GWords<'a> {
    line: u32,
    text: &'a [u8],
    at: usize,
    nth: u32,
}

impl<'a> Model for GWords<'a> {
    ghost use Rattle.std.specs.Prelude.{◌<◌, ◌≤◌, ◌^◌, length};
    ghost use Rattle.bc_lex.specs.Places.{WordPlace};

    ghost Value = { WordPlace };

    ghost view = { λ w. record { line = w.line; text = w.text.now; at = w.at; nth = w.nth } };

    ghost invariant = { λ w. record { short : length w.text.now < 2 ^ 32; within : w.at ≤ length w.text.now; few : w.nth ≤ w.at } };
}

/// Whether a byte is a blank: space, tab or CR.
pub fn blank_at(b: u8) -> bool
    ensures { result ≡ is_line_blank b }
{
    b == b' ' || b == b'\t' || b == b'\r'
}

pub fn letter_at(b: u8) -> bool
    ensures { result ≡ is_letter b }
{
    (b >= b'A' && b <= b'Z') || (b >= b'a' && b <= b'z')
}

fn capital_of(b: u8) -> u8
    ensures { result ≡ capital b }
{
    if b >= b'a' && b <= b'z' { b - 32 } else { b }
}

/// How many blanks stand at the front.
pub fn count_blanks(bytes: &[u8]) -> usize
    ensures value { result ≡ blanks bytes.now }
    ensures within { result ≤ length bytes.now }
{
    let mut count = 0;
    for b in bytes {
        if !blank_at(*b) {
            return count;
        }
        count += 1;
    }
    count
}

// Whether the first byte that is no blank is '%'.
fn ignored(bytes: &[u8]) -> bool
    ensures { result ≡ is_ignored bytes.now }
{
    for b in bytes {
        if !blank_at(*b) {
            return *b == b'%';
        }
    }
    false
}

// How many bytes of blanks and whole comments stand at the front.
fn count_gap(bytes: &[u8]) -> usize
    ensures value { result ≡ gap bytes.now }
    ensures within { result ≤ length bytes.now }
{
    let mut count = 0;
    let mut comment = 0;
    for b in bytes {
        if comment > 0 {
            comment += 1;
            if *b == b')' {
                count += comment;
                comment = 0;
            }
        } else if blank_at(*b) {
            count += 1;
        } else if *b == b'(' {
            comment = 1;
        } else {
            return count;
        }
    }
    count
}

fn front_of(bytes: &[u8]) -> Front
    ensures value { result ≡ found bytes.now }
    ensures within { FitsIn result bytes.now }
{
    let [first, rest @ ..] = bytes else {
        return Front::Nothing;
    };
    if *first == b';' {
        return Front::Nothing;
    }
    let skipped = count_blanks(rest);
    let len = number_len(&rest[skipped..]);
    if letter_at(*first) && len > 0 {
        Front::Item {
            letter: capital_of(*first),
            skipped: skipped + 1,
            len,
        }
    } else {
        Front::Bad
    }
}

impl<'a> GWords<'a> {
    /// The words of a line of fewer than 2^32 bytes. A line whose first byte that is no blank is `%` has none.
    pub fn new(of: Line<'a>) -> GWords<'a>
        requires { length of.text.now < 2 ^ 32 }
        ensures { result ≡ line_start (line of.entry) }
    {
        GWords {
            line: of.number,
            text: of.text,
            at: if ignored(of.text) { of.text.len() } else { 0 },
            nth: 0,
        }
    }

    /// The next word, and `None` exactly at the end of the line's words.
    ///
    /// # Errors
    /// `BadAt` exactly where the bytes behind the blanks and comments begin no word, as an unclosed `(` does. The place
    /// stays, so the next call answers the same.
    pub fn next(&mut self) -> Result<Option<GWord<'a>>, BadAt>
        ensures answer { seen result ≡ next_word self.old }
        ensures place { self.new ≡ after_word self.old }
        ensures shorter { IfOk result (λ w. IfSome w (λ _. length self.new.text - self.new.at < length self.old.text - self.old.at)) }
    {
        let text = self.text;
        let start = self.at + count_gap(&text[self.at..]);
        let rest = &text[start..];
        match front_of(rest) {
            Front::Nothing => Ok(None),
            Front::Bad => Err(BadAt {
                line: self.line,
                nth: self.nth + 1,
            }),
            Front::Item {
                letter,
                skipped,
                len,
            } => {
                let from = start + skipped;
                self.at = from + len;
                self.nth += 1;
                Ok(Some(GWord {
                    line: self.line,
                    nth: self.nth,
                    from,
                    letter,
                    number: &text[from..from + len],
                }))
            }
        }
    }
}
