//! The lines of a text, the words of a line, the words of a contour line, and the tokens of a CSG text, each a slice of
//! the text that was lent: nothing is copied, and nothing allocates. `specs/` says what the next item at a place is, and
//! where it stands.
#![tactic(auto)]

mod gwords;
pub mod laws;
mod lines;
mod tokens;
mod words;

pub use gwords::{BadAt, GWord, GWords};
pub use lines::{Line, Lines};
pub use tokens::{Kind, Token, Tokens};
pub use words::{Word, Words};
