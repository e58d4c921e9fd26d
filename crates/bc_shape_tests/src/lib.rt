//! Tests of the crates of points, half-spaces, cells and boundaries: what no clause says, and each public function once.
#![tactic(auto)]

#[cfg(test)]
mod audit_tests;
#[cfg(test)]
mod cells_tests;
#[cfg(test)]
mod classify_tests;
#[cfg(test)]
mod combine_tests;
#[cfg(test)]
mod discs_tests;
#[cfg(test)]
mod natural_tests;
#[cfg(test)]
mod num_tests;
#[cfg(test)]
mod parity_tests;
#[cfg(test)]
mod solid_tests;
#[cfg(test)]
mod space_tests;
