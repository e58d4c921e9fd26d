//! Why contours are no profile: the first arc at fault. `contour_check` has the call that answers it.
ghost use Rattle.std.specs.Prelude.{◌≡◌};
ghost use Rattle.bc_solid.specs.declared.contour_fault.ContourFault.TheVariants.{Memory};

use bc_num::Memory as NoMemory;
use thiserror::Error;

/// The first fault of contours, by their arcs in order. `at` is the number of the arc among all elements, which count
/// from 0, contour after contour.
/// What counts for users is the line that the program writes (`docs/formats.md`), and not `Display`.
#[derive(Debug, Drop, PartialEq, Eq, Clone, Copy, Error)]
pub enum ContourFault {
    /// The centre is the start.
    #[error("element {at}: an arc of radius 0")]
    ZeroRadius { at: u32 },
    /// The squared distances of start and end from the centre differ.
    #[error("element {at}: the ends of an arc are not equally far from its centre: {start2} and {end2}")]
    SkewArc { at: u32, start2: i64, end2: i64 },
    /// There is no memory left.
    #[error("out of memory")]
    Memory,
}

impl From<NoMemory> for ContourFault {
    ghost from_gives = { λ _ e. e ≡ Memory };

    fn from(_: NoMemory) -> Self {
        ContourFault::Memory
    }
}
