//! How many distinct half-spaces of each kind an input may have. `gather_curves` and `gather_planes` hold the tables to
//! these numbers.

/// How many distinct lines contours may have.
pub const MOST_LINES: usize = 40;

/// How many distinct discs contours may have.
pub const MOST_DISCS: usize = 10;

/// How many distinct planes a mesh may have.
pub const MOST_PLANES: usize = 40;
