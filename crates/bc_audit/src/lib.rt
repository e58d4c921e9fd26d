//! Whether a formula still means a closed mesh. `specs/Audits` says what an answer tells, `specs/SlabPlanes` which planes
//! count, and `specs/Told` what a mask tells of a tree.
#![tactic(auto)]

mod blocks;
mod fault;
mod holds;
pub mod laws;
mod literal;
mod plane_set;
mod planes;
mod verdict;

pub use fault::AuditFault;
pub use verdict::{Verdict, audit};
