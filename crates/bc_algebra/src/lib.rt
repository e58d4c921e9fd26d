//! Exact algebra over the integers, for the proofs of all crates above. There is no code here: `specs/` has the one word
//! `IsWithin` for how far from 0 a number may be, and `proofs/` has
//!
//! - `Laws`: the laws of products that the library lacks,
//! - `Ring`: identities of polynomials by computation, and from given equations times factors,
//! - `Order`: signs of sums, products and squares, factors cancelled, squares compared, Cauchy's inequality,
//! - `Sizes`: overflows, values and bounds in one line each,
//! - `IdentityUses`, `OrderUses`, `SizeUses`: each kind of tool at work, to copy from.
#![tactic(auto)]
