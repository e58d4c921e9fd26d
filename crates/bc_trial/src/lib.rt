//! Generated boundaries: a stair as an OFF text, and a plate with holes as a contour text. `specs/` says the texts line by
//! line, and that each of them is of its grammar, closed and within the limits of a conversion.
#![tactic(auto)]

mod contour;
pub mod laws;
mod off;
mod pieces;

pub use contour::{MOST_CONTOUR, trial_contour};
pub use off::{MOST_OFF, trial_off};
