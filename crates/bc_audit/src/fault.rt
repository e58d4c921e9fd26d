//! Why an audit gives no verdict: a block is not the mesh's box, the planes are too many, or memory is short. `verdict`
//! gives these answers, and `specs/Audits` says when each of the first two comes.
ghost use Rattle.std.specs.Prelude.{◌≡◌};
ghost use Rattle.bc_audit.specs.declared.fault.AuditFault.TheVariants.{Memory};

use bc_num::Memory as NoMemory;
use thiserror::Error;

/// Why a tree is not audited.
#[derive(Debug, Drop, PartialEq, Eq, Clone, Copy, Error)]
pub enum AuditFault {
    /// A block of the tree is not the box of the mesh.
    #[error("a block is not the box of the mesh")]
    OtherBox,
    /// There are `n` distinct planes of faces and slabs, which are too many.
    #[error("{n} planes are too many")]
    TooManyPlanes { n: u64 },
    /// There is no memory left.
    #[error("out of memory")]
    Memory,
}

impl From<NoMemory> for AuditFault {
    ghost from_gives = { λ _ e. e ≡ Memory };

    fn from(_: NoMemory) -> Self {
        AuditFault::Memory
    }
}
