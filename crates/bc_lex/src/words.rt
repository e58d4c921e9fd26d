//! The words of a line between blanks, up to a `#`, one after another, each with its place. `lines` gives the line, and
//! `specs/Words` says what the next word is. The words of contour lines are in `gwords`.
ghost use Rattle.std.specs.Prelude.{◌≡◌, ◌-◌, ◌<◌, ◌≤◌, ◌^◌, length, is_none, IfSome};
ghost use Rattle.std.specs.Option.{option_map};
ghost use Rattle.bc_lex.specs.Lines.{line};
ghost use Rattle.bc_lex.specs.Words.{is_part, word_length, plain, plain_line, next_plain, after_plain};

use crate::gwords::{blank_at, count_blanks};
use crate::lines::Line;
use std::marker::Model;

/// A word of a line: bytes between blanks. It is the `nth` word of the line with the number `line`, both counted from 1;
/// `from` is where it begins in the line's text.
#[derive(Clone, Copy, Debug)]
pub struct Word<'a> {
    pub line: u32,
    pub nth: u32,
    pub from: usize,
    pub text: &'a [u8],
}

/// The words of a line, one after another, as in Geomview's OFF: they are cut at blanks (space, tab and CR), and the first
/// `#` begins a comment, which goes on to the line's end. Each is a slice of the line, and nothing is copied.
#[derive(Drop)]
pub struct Words<'a> {
    line: u32,
    text: &'a [u8],
    at: usize,
    nth: u32,
}

impl<'a> Model for Words<'a> {
    ghost use Rattle.std.specs.Prelude.{◌<◌, ◌≤◌, ◌^◌, length};
    ghost use Rattle.bc_lex.specs.Places.{WordPlace};

    ghost Value = { WordPlace };

    ghost view = { λ w. record { line = w.line; text = w.text.now; at = w.at; nth = w.nth } };

    ghost invariant = { λ w. record { short : length w.text.now < 2 ^ 32; within : w.at ≤ length w.text.now; few : w.nth ≤ w.at } };
}

// Whether a byte is part of a word.
fn part_at(b: u8) -> bool
    ensures { result ≡ is_part b }
{
    b != b'#' && !blank_at(b)
}

// How many bytes of a word stand at the front.
fn count_word(bytes: &[u8]) -> usize
    ensures value { result ≡ word_length bytes.now }
    ensures within { result ≤ length bytes.now }
{
    let mut count = 0;
    for b in bytes {
        if !part_at(*b) {
            return count;
        }
        count += 1;
    }
    count
}

impl<'a> Words<'a> {
    /// The words of a line of fewer than 2^32 bytes.
    pub fn new(of: Line<'a>) -> Words<'a>
        requires { length of.text.now < 2 ^ 32 }
        ensures { result ≡ plain_line (line of.entry) }
    {
        Words {
            line: of.number,
            text: of.text,
            at: 0,
            nth: 0,
        }
    }

    /// The number of the line.
    pub fn line(&self) -> u32
        ensures { result ≡ self.now.line }
    {
        self.line
    }

    /// How many words came so far.
    pub fn nth(&self) -> u32
        ensures value { result ≡ self.now.nth }
        ensures few { result ≤ length self.now.text }
    {
        self.nth
    }

    /// Whether no word is left.
    pub fn is_ended(&self) -> bool
        ensures { result ≡ is_none (next_plain self.now) }
    {
        let rest = &self.text[self.at..];
        count_word(&rest[count_blanks(rest)..]) == 0
    }

    /// The next word, and `None` exactly at the end of the line's words.
    pub fn next(&mut self) -> Option<Word<'a>>
        ensures answer { option_map plain result ≡ next_plain self.old }
        ensures place { self.new ≡ after_plain self.old }
        ensures shorter { IfSome result (λ _. length self.new.text - self.new.at < length self.old.text - self.old.at) }
    {
        let text = self.text;
        let from = self.at + count_blanks(&text[self.at..]);
        let rest = &text[from..];
        let count = count_word(rest);
        if count == 0 {
            return None;
        }
        self.at = from + count;
        self.nth += 1;
        Some(Word {
            line: self.line,
            nth: self.nth,
            from,
            text: &rest[..count],
        })
    }
}
