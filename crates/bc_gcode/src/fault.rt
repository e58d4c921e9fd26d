//! The faults of a contour text, with the line and the word where each stands, and the order in which they come.
//! `words` finds the faults of words, and `moves` the faults of blocks and contours.
ghost use Rattle.std.specs.Prelude.{◌≡◌};
ghost use Rattle.bc_gcode.specs.declared.fault.GFault.TheVariants.{Memory};

use bc_num::{Memory as NoMemory, V2};
use thiserror::Error;

/// The first fault of a contour text. Lines and words count from 1. Words come from left to right, and for one word the
/// faults come in the order `BadWord` to `TooFar`. If no word of a line is at fault, the faults of its block come in the
/// order `ThreeAxis`, `MissingMotion`, `OpenContour` of a G00, `MissingCentre`, `TooFar`, `TooMany`, and `OpenContour` of
/// an M02 or M30. (The words and the modes are RS274/NGC's, the names and the order this project's own.)
/// What counts for users is the line that the program writes (`docs/formats.md`), and not `Display`.
#[derive(Debug, Drop, PartialEq, Eq, Clone, Copy, Error)]
pub enum GFault {
    /// Bytes begin no word; `word` is the number that it would have.
    #[error("line {line}, word {word}: no word begins here")]
    BadWord { line: u32, word: u32 },
    /// A letter, a G number or an M number that is none of this profile's.
    #[error("line {line}, word {word}: this word is not known")]
    UnknownWord { line: u32, word: u32 },
    /// G91 asks for incremental coordinates.
    #[error("line {line}, word {word}: incremental coordinates are not read")]
    Incremental { line: u32, word: u32 },
    /// A second X, Y, Z, I or J in one block, or a second word for the motion mode.
    #[error("line {line}, word {word}: a second word of its kind")]
    TwinWord { line: u32, word: u32 },
    /// The number of an X, Y, I or J is not whole.
    #[error("line {line}, word {word}: the number is not whole")]
    NotWhole { line: u32, word: u32 },
    /// An X or Y is past 1023 in size; with word 0, the centre of the block's arc is.
    #[error("line {line}, word {word}: a coordinate is past 1023")]
    TooFar { line: u32, word: u32 },
    /// Z stands beside X, Y, I or J.
    #[error("line {line}: a third axis beside those of the plane")]
    ThreeAxis { line: u32 },
    /// X, Y, I or J stands, and no word has set a motion mode.
    #[error("line {line}: there is no motion mode")]
    MissingMotion { line: u32 },
    /// An arc's block has neither I nor J.
    #[error("line {line}: an arc without a centre")]
    MissingCentre { line: u32 },
    /// A contour is closed at `end`, which is not its `start`. At the end of the text, `line` is that behind the last.
    #[error("line {line}: a contour does not end where it began")]
    OpenContour { line: u32, start: V2, end: V2 },
    /// The block adds the 513th element.
    #[error("line {line}: more than 512 elements")]
    TooMany { line: u32 },
    /// There is no memory left.
    #[error("out of memory")]
    Memory,
}

impl From<NoMemory> for GFault {
    ghost from_gives = { λ _ e. e ≡ Memory };

    fn from(_: NoMemory) -> Self {
        GFault::Memory
    }
}
