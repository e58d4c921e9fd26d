//! Why a text spells no tree: the first fault, with its line and its token. `read` has the call that answers it.
ghost use Rattle.std.specs.Prelude.{◌≡◌};
ghost use Rattle.bc_read.specs.declared.fault.CsgFault.TheVariants.{Memory};

use bc_num::Memory as NoMemory;
use std::alloc::AllocError;
use thiserror::Error;

/// The first fault of a CSG text, read from left to right. Lines and tokens count from 1; at the end of the text the line is
/// the one behind the last, and the token one past the last.
#[derive(Debug, Drop, PartialEq, Eq, Clone, Copy, Error)]
pub enum CsgFault {
    /// The bytes begin no token.
    #[error("line {line}, token {token}: no token")]
    BadToken { line: u32, token: u32 },
    /// The token, or the end of the text, is none that may stand here.
    #[error("line {line}, token {token}: another token is wanted")]
    BadShape { line: u32, token: u32 },
    /// The number has a leading zero, is `-0`, or is past 8,388,607 in size.
    #[error("line {line}, token {token}: no such number")]
    BadNumber { line: u32, token: u32 },
    /// The numbers of the leaf that begins here are those of no leaf.
    #[error("line {line}, token {token}: no such leaf")]
    BadFrame { line: u32, token: u32 },
    /// The leaf that begins here is of the plane and another of space, or the other way round.
    #[error("line {line}, token {token}: plane and space are mixed")]
    Mixed { line: u32, token: u32 },
    /// The operator would be the 65th that is nested in one another.
    #[error("line {line}, token {token}: too deep")]
    TooDeep { line: u32, token: u32 },
    /// A token follows the tree.
    #[error("line {line}, token {token}: one token too many")]
    Extra { line: u32, token: u32 },
    /// There is no memory left.
    #[error("out of memory")]
    Memory,
}

impl From<NoMemory> for CsgFault {
    ghost from_gives = { λ _ e. e ≡ Memory };

    fn from(_: NoMemory) -> Self {
        CsgFault::Memory
    }
}
