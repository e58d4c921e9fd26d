//! How a run of the program ends: the status, why good words are refused, and the line that says so. Each fault of the
//! crates below becomes a status by `From`, so that `?` passes it on.
#![tactic(auto)]

mod faults;
mod lines;
mod parts;
mod reporting;
mod status;

pub use parts::{InnerFault, PartFault};
pub use reporting::report;
pub use status::{Refusal, Status};
