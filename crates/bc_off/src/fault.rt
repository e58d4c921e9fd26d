//! Why a text says no mesh: the first fault, with its line and its word. `read` has the call that answers it.
ghost use Rattle.std.specs.Prelude.{◌≡◌};
ghost use Rattle.bc_off.specs.declared.fault.OffFault.TheVariants.{Memory};

use bc_num::Memory as NoMemory;
use thiserror::Error;

/// The first fault of an OFF text, read from its first word to its last. Lines and words count from 1; the word is 0 where
/// the text ends too early, and the line is then the one behind the last.
/// What counts for users is the line that the program writes (`docs/formats.md`), and not `Display`.
#[derive(Debug, Drop, PartialEq, Eq, Clone, Copy, Error)]
pub enum OffFault {
    /// The first word is not `OFF`, or there is none.
    #[error("line {line}, word {word}: no `OFF`")]
    NotOff { line: u32, word: u32 },
    /// A count is no whole number, is negative, or is missing.
    #[error("line {line}, word {word}: no count")]
    BadCount { line: u32, word: u32 },
    /// The text ends early, or a line has too few words.
    #[error("line {line}, word {word}: a word is missing")]
    Short { line: u32, word: u32 },
    /// The word is no number.
    #[error("line {line}, word {word}: no number")]
    BadWord { line: u32, word: u32 },
    /// The number has a digit other than 0 behind its point.
    #[error("line {line}, word {word}: no whole number")]
    NotWhole { line: u32, word: u32 },
    /// The coordinate is past 1023.
    #[error("line {line}, word {word}: past 1023")]
    TooFar { line: u32, word: u32 },
    /// There is no vertex with this index.
    #[error("line {line}, word {word}: no such vertex")]
    BadIndex { line: u32, word: u32 },
    /// A face has fewer than three corners.
    #[error("line {line}, word {word}: fewer than three corners")]
    ShortFace { line: u32, word: u32 },
    /// More than 1,024 vertices, 2,048 faces or 64 corners of a face are announced.
    #[error("line {line}, word {word}: too many")]
    TooMany { line: u32, word: u32 },
    /// A word stands behind what its line may have, or behind the last face.
    #[error("line {line}, word {word}: one word too many")]
    Extra { line: u32, word: u32 },
    /// There is no memory left.
    #[error("out of memory")]
    Memory,
}

impl From<NoMemory> for OffFault {
    ghost from_gives = { λ _ e. e ≡ Memory };

    fn from(_: NoMemory) -> Self {
        OffFault::Memory
    }
}
