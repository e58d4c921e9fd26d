//! Tests of the crates of bytes, words, grammars, trees and covers: what no clause says, and each public function once.
#![tactic(auto)]

#[cfg(test)]
mod cover_tests;
#[cfg(test)]
mod factor_tests;
#[cfg(test)]
mod gcode_tests;
#[cfg(test)]
mod io_tests;
#[cfg(test)]
mod lex_tests;
#[cfg(test)]
mod notes_tests;
#[cfg(test)]
mod off_tests;
#[cfg(test)]
mod pair_tests;
#[cfg(test)]
mod prism_tests;
#[cfg(test)]
mod read_tests;
#[cfg(test)]
mod text_tests;
#[cfg(test)]
mod tree_tests;
#[cfg(test)]
mod trial_tests;
