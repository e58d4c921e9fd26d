//! The tree that a whole text spells, or its first fault: its tokens are taken one by one, until one is at fault or
//! none is left. What a token does is in `reading`.
ghost use Rattle.std.specs.Prelude.{◌≡◌, ◌≤◌, ◌^◌, length};
ghost use Rattle.bc_read.specs.Machine.{state, finish as finishes, end_line as line_behind, Reads};

use crate::fault::CsgFault;
use crate::reading::{Now, Reading, take};
use bc_lex::{BadAt, Lines, Tokens};
use bc_tree::Tree;
use sqlite_items::Items;
use std::alloc::Global;

// The line behind the last.
fn end_line(text: &[u8]) -> u32
    requires { length text.now ≤ 2 ^ 28 }
    ensures { result ≡ line_behind text.now }
{
    let mut lines = Lines::new(text);
    while let Some(_) = lines.next() {}
    lines.number() + 1
}

/// The tree that a text of at most 2^28 bytes spells: one union, intersection, difference or leaf, after the OpenSCAD language
/// with this project's profile. At most 64 operators are nested, each intersection has a child, each leaf is within its ranges,
/// and leaves of the plane and of space do not both occur. A slab or strip along an axis is read in its long and in its short
/// form, in one text too. Blanks and comments are free between tokens.
///
/// The text is read once, from left to right. Memory is taken for the tree, the operators that are open and the numbers of one
/// leaf.
///
/// # Errors
/// The first fault of the text, exactly where it spells no tree; or `Memory` where there is none left.
pub fn read_csg(alloc: Global, text: &[u8]) -> Result<Tree, CsgFault>
    requires { length text.now ≤ 2 ^ 28 }
    ensures { Reads result text.now }
{
    let mut tokens = Tokens::new(text);
    let mut reading = Reading {
        stack: Items::new(alloc),
        seen: None,
        numbers: Vec::new(alloc),
        now: Now::Node,
    };
    loop {
        match tokens.next() {
            Err(BadAt { line, nth }) => return Err(CsgFault::BadToken { line, token: nth }),
            Ok(None) => return finish(text, reading, tokens.nth()),
            Ok(Some(token)) => take(alloc, &mut reading, &token)?,
        }
    }
}

// The answer where the text ends behind `nth` tokens.
fn finish(text: &[u8], reading: Reading, nth: u32) -> Result<Tree, CsgFault>
    requires short { length text.now ≤ 2 ^ 28 }
    requires few { nth ≤ length text.now }
    ensures { result ≡ finishes (line_behind text.now) (state reading).at nth }
{
    let Reading { now, .. } = reading;
    match now {
        Now::Whole(tree) => Ok(tree),
        Now::Node | Now::Inside(_) => Err(CsgFault::BadShape {
            line: end_line(text),
            token: nth + 1,
        }),
    }
}
