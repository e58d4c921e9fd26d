//! Why a mesh is no solid: the first face or edge at fault. `mesh_check` has the call that answers it.
ghost use Rattle.std.specs.Prelude.{◌≡◌};
ghost use Rattle.bc_solid.specs.declared.mesh_fault.MeshFault.TheVariants.{Memory};

use bc_num::{Memory as NoMemory, V3};
use thiserror::Error;

/// The first fault of a mesh: of its faces in order, and then of the edges of all faces in order. Faces and the corners of
/// a face count from 0.
/// What counts for users is the line that the program writes (`docs/formats.md`), and not `Display`.
#[derive(Debug, Drop, PartialEq, Eq, Clone, Copy, Error)]
pub enum MeshFault {
    /// The corner at `place` and the next one have the same coordinates; the first comes behind the last.
    #[error("face {face}: corner {place} is the same as the next one")]
    TwinCorner { face: u32, place: u32 },
    /// All corners are on one line.
    #[error("face {face}: all corners are on one line")]
    FlatFace { face: u32 },
    /// The corner at `place` is the first that is on no plane with all before it.
    #[error("face {face}: corner {place} is on no plane with those before it")]
    BentFace { face: u32, place: u32 },
    /// The edge from `a` to `b`, the lesser end first, occurs `count` times among the edges of all faces, an odd number.
    #[error("the edge from {a:?} to {b:?} occurs {count} times")]
    OddEdge { a: V3, b: V3, count: u32 },
    /// There is no memory left.
    #[error("out of memory")]
    Memory,
}

impl From<NoMemory> for MeshFault {
    ghost from_gives = { λ _ e. e ≡ Memory };

    fn from(_: NoMemory) -> Self {
        MeshFault::Memory
    }
}
