//! Regions of the plane with sets of discs: which of them can have a point, and points that show it. `specs/Rules` says
//! when a region and a set are dropped, `specs/Thinning` when two exact rules take them out, `specs/Samples` what a sample
//! of a region is, `specs/Candidates` and `specs/Lean` what the lists of candidates are, and `specs/Laws` what the rules
//! and samples tell of points.
#![tactic(auto)]

mod candidate;
mod candidate_list;
mod choice;
pub mod laws;
mod rules;
mod samples;
mod seen;
mod sets;
mod sieve;
mod thinning;
mod wall;

pub use candidate::Candidate;
pub use candidate_list::{candidates, candidates_of_region, lean_candidates};
pub(crate) use choice::Choice;
pub(crate) use sieve::Sieve;
pub(crate) use wall::Wall;

#[cfg(test)]
mod seen_tests;
