//! The block of a line, or its first word at fault. The words come from `bc_lex` and are taken from left to right.
//! `specs/Blocks` says which words are read, which are ignored, and which are at fault.
ghost use Rattle.std.specs.Prelude.{◌≡◌, ◌<◌, ◌^◌, length, Result, Option};
ghost use Rattle.bc_num.specs.Words.{Word};
ghost use Rattle.bc_num.specs.Whole.{whole};
ghost use Rattle.bc_solid.specs.Contours.{is_far};
ghost use Rattle.bc_gcode.specs.Answers.{becomes};
ghost use Rattle.bc_gcode.specs.Blocks.{among, mode_of, is_free_g, ends_program, is_free_m, is_free_letter, with_mode, g_word, m_word, z_word, number, offset, coordinate, with_word, block_of};

use crate::block::{Block, Motion};
use crate::fault::GFault;
use bc_lex::{BadAt, GWord, GWords, Line};
use bc_num::{MOST_COORD, NumFault, read_whole};

// The motion mode that a G word sets.
fn motion_mode(code: i64) -> Option<Option<Motion>>
    ensures { result ≡ mode_of code }
{
    if code == 0 {
        Some(Some(Motion::Rapid))
    } else if code == 1 {
        Some(Some(Motion::Linear))
    } else if code == 2 {
        Some(Some(Motion::Clockwise))
    } else if code == 3 {
        Some(Some(Motion::CounterClockwise))
    } else if code == 80 {
        Some(None)
    } else {
        None
    }
}

// Whether the number is one of the codes.
fn is_among(value: i64, codes: &[u8]) -> bool
    ensures { result ≡ among value codes.now }
{
    for code in codes {
        if value == i64::from(*code) {
            return true;
        }
    }
    false
}

fn free_g(code: i64) -> bool
    ensures { result ≡ is_free_g code }
{
    is_among(code, &[17, 20, 21, 40, 49, 54, 90, 94])
}

fn ending_m(code: i64) -> bool
    ensures { result ≡ ends_program code }
{
    is_among(code, &[2, 30])
}

fn free_m(code: i64) -> bool
    ensures { result ≡ is_free_m code }
{
    is_among(code, &[3, 4, 5, 6, 7, 8, 9])
}

fn free_letter(letter: u8) -> bool
    ensures { result ≡ is_free_letter letter }
{
    letter == b'N' || letter == b'F' || letter == b'S' || letter == b'T'
}

// A word for the motion mode, or one that is ignored.
fn take_g(block: &mut Block, word: &GWord<'_>) -> Result<(), GFault>
    ensures { becomes result block.new ≡ g_word word.now.line word.now.nth block.old (whole word.now.number.now) }
{
    let (line, word, code) = (word.line, word.nth, read_whole(word.number));
    let Ok(code) = code else {
        return Err(GFault::UnknownWord { line, word });
    };
    if code == 91 {
        return Err(GFault::Incremental { line, word });
    }
    if free_g(code) {
        return Ok(());
    }
    let Some(mode) = motion_mode(code) else {
        return Err(GFault::UnknownWord { line, word });
    };
    if block.mode.is_some() {
        return Err(GFault::TwinWord { line, word });
    }
    block.mode = Some(mode);
    Ok(())
}

// A word that ends the program, or one that is ignored.
fn take_m(block: &mut Block, word: &GWord<'_>) -> Result<(), GFault>
    ensures { becomes result block.new ≡ m_word word.now.line word.now.nth block.old (whole word.now.number.now) }
{
    let (line, word, code) = (word.line, word.nth, read_whole(word.number));
    let Ok(code) = code else {
        return Err(GFault::UnknownWord { line, word });
    };
    if ending_m(code) {
        block.ends = true;
        return Ok(());
    }
    if free_m(code) {
        Ok(())
    } else {
        Err(GFault::UnknownWord { line, word })
    }
}

fn take_z(block: &mut Block, word: &GWord<'_>) -> Result<(), GFault>
    ensures { becomes result block.new ≡ z_word word.now.line word.now.nth block.old }
{
    if block.z {
        return Err(GFault::TwinWord {
            line: word.line,
            word: word.nth,
        });
    }
    block.z = true;
    Ok(())
}

// The whole number of a word, where none stands yet.
fn read_offset(old: &Option<i64>, word: &GWord<'_>) -> Result<i64, GFault>
    ensures { result ≡ offset word.now.line word.now.nth old.now (whole word.now.number.now) }
{
    let (line, nth) = (word.line, word.nth);
    if old.is_some() {
        return Err(GFault::TwinWord { line, word: nth });
    }
    match read_whole(word.number) {
        Ok(value) => Ok(value),
        Err(NumFault::BadWord) => Err(GFault::BadWord { line, word: nth }),
        Err(NumFault::NotWhole) => Err(GFault::NotWhole { line, word: nth }),
    }
}

/// Whether a coordinate is past 1023 in size.
pub fn far(value: i64) -> bool
    ensures { result ≡ is_far value }
{
    value.unsigned_abs() > MOST_COORD
}

// The whole number of a word within 1023, where none stands yet.
fn read_coordinate(old: &Option<i64>, word: &GWord<'_>) -> Result<i64, GFault>
    ensures { result ≡ coordinate word.now.line word.now.nth old.now (whole word.now.number.now) }
{
    let value = read_offset(old, word)?;
    if far(value) {
        return Err(GFault::TooFar {
            line: word.line,
            word: word.nth,
        });
    }
    Ok(value)
}

// Takes one more word into a block, or answers its fault.
fn take_word(block: &mut Block, word: &GWord<'_>) -> Result<(), GFault>
    ensures { becomes result block.new ≡ with_word word.now.line word.now.nth block.old (record { letter = word.now.letter; number = word.now.number.now }) }
{
    match word.letter {
        b'G' => return take_g(block, word),
        b'M' => return take_m(block, word),
        b'X' => block.x = Some(read_coordinate(&block.x, word)?),
        b'Y' => block.y = Some(read_coordinate(&block.y, word)?),
        b'I' => block.i = Some(read_offset(&block.i, word)?),
        b'J' => block.j = Some(read_offset(&block.j, word)?),
        b'Z' => return take_z(block, word),
        letter => {
            if !free_letter(letter) {
                return Err(GFault::UnknownWord {
                    line: word.line,
                    word: word.nth,
                });
            }
        }
    }
    Ok(())
}

/// The block of a line, or its first word at fault.
pub fn read_block(of: Line<'_>) -> Result<Block, GFault>
    requires { length of.text.now < 2 ^ 32 }
    ensures { result ≡ block_of of.entry.number of.entry.text.now }
{
    let mut words = GWords::new(of);
    let mut block = Block {
        x: None,
        y: None,
        i: None,
        j: None,
        z: false,
        mode: None,
        ends: false,
    };
    loop {
        match words.next() {
            Err(BadAt { line, nth }) => return Err(GFault::BadWord { line, word: nth }),
            Ok(None) => return Ok(block),
            Ok(Some(word)) => take_word(&mut block, &word)?,
        }
    }
}
