//! The lines of a text, one after another, each with its number. `words` and `gwords` cut a line into words, and
//! `specs/Lines` says what the next line is.
ghost use Rattle.std.specs.Prelude.{◌≡◌, ◌-◌, ◌<◌, ◌≤◌, ◌^◌, length, IfSome};
ghost use Rattle.std.specs.Option.{option_map};
ghost use Rattle.bc_lex.specs.Lines.{line_length, next_line, after_line, line};

use std::marker::Model;

/// A line of a text, without its LF. `number` counts the lines from 1.
#[derive(Clone, Copy, Debug)]
pub struct Line<'a> {
    pub number: u32,
    pub text: &'a [u8],
}

/// The lines of a text, one after another. Each is a slice of the text, and nothing is copied.
#[derive(Drop)]
pub struct Lines<'a> {
    text: &'a [u8],
    at: usize,
    number: u32,
}

impl<'a> Model for Lines<'a> {
    ghost use Rattle.std.specs.Prelude.{◌<◌, ◌≤◌, ◌^◌, length};
    ghost use Rattle.bc_lex.specs.Places.{LinePlace};

    ghost Value = { LinePlace };

    ghost view = { λ l. record { text = l.text.now; at = l.at; number = l.number } };

    ghost invariant = { λ l. record { short : length l.text.now < 2 ^ 32; within : l.at ≤ length l.text.now; few : l.number ≤ l.at } };
}

fn count_line(bytes: &[u8]) -> usize
    ensures value { result ≡ line_length bytes.now }
    ensures within { result ≤ length bytes.now }
{
    let mut count = 0;
    for b in bytes {
        if *b == b'\n' {
            return count;
        }
        count += 1;
    }
    count
}

impl<'a> Lines<'a> {
    /// The lines of a text of fewer than 2^32 bytes.
    pub fn new(text: &'a [u8]) -> Lines<'a>
        requires { length text.now < 2 ^ 32 }
        ensures { result ≡ record { text = text.now; at = 0; number = 0 } }
    {
        Lines {
            text,
            at: 0,
            number: 0,
        }
    }

    /// How many lines came so far.
    pub fn number(&self) -> u32
        ensures value { result ≡ self.now.number }
        ensures few { result ≤ length self.now.text }
    {
        self.number
    }

    /// Where the next line begins in the text.
    pub fn place(&self) -> usize
        ensures value { result ≡ self.now.at }
        ensures within { result ≤ length self.now.text }
    {
        self.at
    }

    /// The next line, and `None` exactly at the end of the text. An empty piece behind the last LF is no line.
    pub fn next(&mut self) -> Option<Line<'a>>
        ensures answer { option_map line result ≡ next_line self.old }
        ensures place { self.new ≡ after_line self.old }
        ensures shorter { IfSome result (λ _. length self.new.text - self.new.at < length self.old.text - self.old.at) }
        ensures within { IfSome result (λ l. length l.text.now ≤ length self.old.text) }
    {
        let text = self.text;
        let rest = &text[self.at..];
        if rest.is_empty() {
            return None;
        }
        let count = count_line(rest);
        self.at = (self.at + count + 1).min(text.len());
        self.number += 1;
        Some(Line {
            number: self.number,
            text: &rest[..count],
        })
    }
}
