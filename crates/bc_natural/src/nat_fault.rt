//! Why an input gives no table of half-spaces: more planes, lines or discs than the constants in `limits` allow, or no
//! memory. `gather_curves` and `gather_planes` give these answers.
ghost use Rattle.std.specs.Prelude.{◌≡◌};
ghost use Rattle.bc_natural.specs.declared.nat_fault.NatFault.TheVariants.{Memory};

use bc_num::Memory as NoMemory;
use thiserror::Error;

/// Why there is no table of an input's half-spaces.
/// What counts for users is the line that the program writes (`docs/formats.md`), and not `Display`.
#[derive(Debug, Drop, PartialEq, Eq, Clone, Copy, Error)]
pub enum NatFault {
    /// There are `n` distinct planes, which is more than `MOST_PLANES`.
    #[error("{n} planes are too many")]
    TooManyPlanes { n: u64 },
    /// There are `n` distinct lines, which is more than `MOST_LINES`.
    #[error("{n} lines are too many")]
    TooManyLines { n: u64 },
    /// There are `n` distinct discs, which is more than `MOST_DISCS`.
    #[error("{n} discs are too many")]
    TooManyDiscs { n: u64 },
    /// There is no memory left.
    #[error("out of memory")]
    Memory,
}

impl From<NoMemory> for NatFault {
    ghost from_gives = { λ _ e. e ≡ Memory };

    fn from(_: NoMemory) -> Self {
        NatFault::Memory
    }
}
