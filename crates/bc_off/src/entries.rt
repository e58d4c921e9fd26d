//! One word of a line at a time, as a whole number or a coordinate, with the fault that names its line and its place;
//! and the check that no word is left. The lines with words come from `rows`.
ghost use Rattle.std.specs.Prelude.{◌≡◌, ◌+◌, ◌≤◌, ◌^◌, length};
ghost use Rattle.bc_lex.specs.Words.{after_plain};
ghost use Rattle.bc_lex.specs.Left.{plain_left};
ghost use Rattle.bc_num.specs.Whole.{whole};
ghost use Rattle.bc_off.specs.Entries.{whole_of, number, coordinate, no_more};

use crate::fault::OffFault;
use bc_lex::Words;
use bc_num::{MOST_COORD, NumFault, read_whole};

/// The line and the number of the next word, or of the one that is missing.
pub fn place_of_next(words: &Words<'_>) -> (u32, u32)
    requires { length words.now.text ≤ 2 ^ 20 }
    ensures { result ≡ (words.now.line, words.now.nth + 1) }
{
    (words.line(), words.nth() + 1)
}

// The whole value of a word at a place.
fn whole_value(text: &[u8], line: u32, word: u32) -> Result<i64, OffFault>
    ensures { result ≡ whole_of line word (whole text.now) }
{
    match read_whole(text) {
        Ok(value) => Ok(value),
        Err(NumFault::BadWord) => Err(OffFault::BadWord { line, word }),
        Err(NumFault::NotWhole) => Err(OffFault::NotWhole { line, word }),
    }
}

/// The next word as a whole number.
pub fn read_number(words: &mut Words<'_>) -> Result<i64, OffFault>
    requires { length words.old.text ≤ 2 ^ 20 }
    ensures value { result ≡ number words.old.line (words.old.nth + 1) (plain_left words.old) }
    ensures place { words.new ≡ after_plain words.old }
{
    let (line, word) = place_of_next(words);
    match words.next() {
        Some(next) => whole_value(next.text, line, word),
        None => Err(OffFault::Short { line, word }),
    }
}

/// The next word as a whole number within 1023.
pub fn read_coordinate(words: &mut Words<'_>) -> Result<i64, OffFault>
    requires { length words.old.text ≤ 2 ^ 20 }
    ensures value { result ≡ coordinate words.old.line (words.old.nth + 1) (plain_left words.old) }
    ensures place { words.new ≡ after_plain words.old }
{
    let (line, word) = place_of_next(words);
    let value = read_number(words)?;
    if value.unsigned_abs() > MOST_COORD {
        return Err(OffFault::TooFar { line, word });
    }
    Ok(value)
}

/// Nothing; `Extra` where a word is left.
pub fn check_end(words: &Words<'_>) -> Result<(), OffFault>
    requires { length words.now.text ≤ 2 ^ 20 }
    ensures { result ≡ no_more words.now.line (words.now.nth + 1) (plain_left words.now) }
{
    if words.is_ended() {
        return Ok(());
    }
    let (line, word) = place_of_next(words);
    Err(OffFault::Extra { line, word })
}
