//! The tokens of a CSG text, one after another, each with its line and its place, or where no token begins.
//! `specs/Tokens` says what the next token is.
ghost use Rattle.std.specs.Prelude.{◌≡◌, ◌-◌, ◌<◌, ◌≤◌, ◌+◌, ◌^◌, length, IfOk, IfSome};
ghost use Rattle.bc_num.specs.Tokens.{is_digit, is_word, is_mark, is_blank, front};
ghost use Rattle.bc_lex.specs.Tokens.{free_length, line_ends, found, FitsIn, next_token, after_token, text_start, seen};

use crate::BadAt;
use crate::gwords::letter_at;
use std::marker::Model;

/// What a token is: a letter and then letters, digits or `_`; digits, maybe behind a `-`; or one of `( ) { } [ ] , ; =`.
#[derive(Clone, Copy, Debug, PartialEq, Eq)]
pub enum Kind {
    Name,
    Number,
    Mark,
}

/// A token of CSG text, after the OpenSCAD language. It is the `nth` token of the text, counted from 1, and begins in the
/// line with the number `line`, counted from 1; `from` is its place in the text.
#[derive(Clone, Copy, Debug)]
pub struct Token<'a> {
    pub line: u32,
    pub nth: u32,
    pub from: usize,
    pub kind: Kind,
    pub text: &'a [u8],
}

// What stands at the front of some bytes that no gap begins: nothing, bytes that begin no token, or a token of `len` bytes.
#[derive(Clone, Copy)]
enum Front {
    Nothing,
    Bad,
    Item(Kind, usize),
}

// Where a place of a gap is: inside nothing, behind a `/` that is not counted yet, or inside a comment.
#[derive(Clone, Copy)]
enum Inside {
    Nothing,
    Slash,
    Comment,
}

/// The tokens of a CSG text, one after another. Blanks, line ends and comments from `//` to the line's end are free between
/// them. Each is a slice of the text, and nothing is copied.
#[derive(Drop)]
pub struct Tokens<'a> {
    text: &'a [u8],
    at: usize,
    line: u32,
    nth: u32,
}

impl<'a> Model for Tokens<'a> {
    ghost use Rattle.std.specs.Prelude.{◌<◌, ◌≤◌, ◌+◌, ◌^◌, length};
    ghost use Rattle.bc_lex.specs.Places.{TokenPlace};

    ghost Value = { TokenPlace };

    ghost view = { λ t. record { text = t.text.now; at = t.at; line = t.line; nth = t.nth } };

    ghost invariant = { λ t. record { short : length t.text.now < 2 ^ 32; within : t.at ≤ length t.text.now; few : t.nth ≤ t.at; lines : t.line + t.nth ≤ t.at + 1 } };
}

fn digit_at(b: u8) -> bool
    ensures { result ≡ is_digit b }
{
    b >= b'0' && b <= b'9'
}

fn word_at(b: u8) -> bool
    ensures { result ≡ is_word b }
{
    letter_at(b) || digit_at(b) || b == b'_'
}

fn mark_at(b: u8) -> bool
    ensures { result ≡ is_mark b }
{
    b == b'('
        || b == b')'
        || b == b'{'
        || b == b'}'
        || b == b'['
        || b == b']'
        || b == b','
        || b == b';'
        || b == b'='
}

fn blank_at(b: u8) -> bool
    ensures { result ≡ is_blank b }
{
    b == b' ' || b == b'\t' || b == b'\r' || b == b'\n'
}

// How many digits stand at the front.
fn count_digits(bytes: &[u8]) -> usize
    ensures value { result ≡ length (front is_digit bytes.now) }
    ensures within { result ≤ length bytes.now }
{
    let mut count = 0;
    for b in bytes {
        if !digit_at(*b) {
            return count;
        }
        count += 1;
    }
    count
}

// How many letters, digits and `_` stand at the front.
fn count_word(bytes: &[u8]) -> usize
    ensures value { result ≡ length (front is_word bytes.now) }
    ensures within { result ≤ length bytes.now }
{
    let mut count = 0;
    for b in bytes {
        if !word_at(*b) {
            return count;
        }
        count += 1;
    }
    count
}

// How many bytes of blanks and comments stand at the front.
fn count_gap(bytes: &[u8]) -> usize
    ensures value { result ≡ free_length bytes.now }
    ensures within { result ≤ length bytes.now }
{
    let mut count = 0;
    let mut inside = Inside::Nothing;
    for b in bytes {
        match inside {
            Inside::Nothing => {
                if blank_at(*b) {
                    count += 1;
                } else if *b == b'/' {
                    inside = Inside::Slash;
                } else {
                    return count;
                }
            }
            Inside::Slash => {
                if *b != b'/' {
                    return count;
                }
                count += 2;
                inside = Inside::Comment;
            }
            Inside::Comment => {
                count += 1;
                if *b == b'\n' {
                    inside = Inside::Nothing;
                }
            }
        }
    }
    count
}

// How many lines end in the bytes.
fn count_line_ends(bytes: &[u8]) -> u32
    requires { length bytes.now < 2 ^ 32 }
    ensures value { result ≡ line_ends bytes.now }
    ensures few { result ≤ length bytes.now }
{
    let mut count = 0;
    for b in bytes {
        if *b == b'\n' {
            count += 1;
        }
    }
    count
}

fn front_of(bytes: &[u8]) -> Front
    ensures value { result ≡ found bytes.now }
    ensures within { FitsIn result bytes.now }
{
    let [first, rest @ ..] = bytes else {
        return Front::Nothing;
    };
    if digit_at(*first) {
        return Front::Item(Kind::Number, 1 + count_digits(rest));
    }
    if *first == b'-' {
        let count = count_digits(rest);
        return if count == 0 {
            Front::Bad
        } else {
            Front::Item(Kind::Number, 1 + count)
        };
    }
    if letter_at(*first) {
        return Front::Item(Kind::Name, 1 + count_word(rest));
    }
    if mark_at(*first) {
        return Front::Item(Kind::Mark, 1);
    }
    Front::Bad
}

impl<'a> Tokens<'a> {
    /// The tokens of a text of fewer than 2^32 bytes.
    pub fn new(text: &'a [u8]) -> Tokens<'a>
        requires { length text.now < 2 ^ 32 }
        ensures { result ≡ text_start text.now }
    {
        Tokens {
            text,
            at: 0,
            line: 1,
            nth: 0,
        }
    }

    /// How many tokens came so far.
    pub fn nth(&self) -> u32
        ensures value { result ≡ self.now.nth }
        ensures few { result ≤ length self.now.text }
    {
        self.nth
    }

    /// The next token, and `None` exactly at the end of the text.
    ///
    /// # Errors
    /// `BadAt` exactly where the bytes behind the blanks and comments begin no token. The place stays, so the next call answers
    /// the same.
    pub fn next(&mut self) -> Result<Option<Token<'a>>, BadAt>
        ensures answer { seen result ≡ next_token self.old }
        ensures place { self.new ≡ after_token self.old }
        ensures shorter { IfOk result (λ t. IfSome t (λ _. length self.new.text - self.new.at < length self.old.text - self.old.at)) }
    {
        let text = self.text;
        let rest = &text[self.at..];
        let free = count_gap(rest);
        let line_ends = count_line_ends(&rest[..free]);
        let from = self.at + free;
        let rest = &text[from..];
        match front_of(rest) {
            Front::Nothing => Ok(None),
            Front::Bad => Err(BadAt {
                line: self.line + line_ends,
                nth: self.nth + 1,
            }),
            Front::Item(kind, len) => {
                self.at = from + len;
                self.line += line_ends;
                self.nth += 1;
                Ok(Some(Token {
                    line: self.line,
                    nth: self.nth,
                    from,
                    kind,
                    text: &rest[..len],
                }))
            }
        }
    }
}
