//! Numbers, points, boxes and discs, lists that keep their allocator, and the answer for want of memory. `specs/` says
//! what points are the same and which are in lowest terms, what divides what, which vectors are primitive, and what the
//! lines of a text, the words of a contour line and the tokens of CSG text are. `proofs/` has the lemmas on these for the
//! crates above: one point has one form in lowest terms, and one line one primitive vector.
#![tactic(auto)]

mod box2;
mod box3;
mod coord;
mod directions;
mod directions3;
mod disc2;
mod divisors;
mod fractions;
pub mod laws;
mod list;
mod memory;
mod p2;
mod p3;
mod radius;
mod v2;
mod v3;
mod whole;

pub use box2::Box2;
pub use box3::Box3;
pub use coord::{Coord, MOST_COORD};
pub use directions::primitive2;
pub use directions3::primitive3;
pub use disc2::Disc2;
pub use divisors::gcd;
pub use fractions::{reduce2, reduce3};
pub use list::List;
pub use memory::Memory;
pub use p2::P2;
pub use p3::P3;
pub use radius::reach;
pub use v2::V2;
pub use v3::V3;
pub use whole::{NumFault, number_len, read_digits, read_whole};
