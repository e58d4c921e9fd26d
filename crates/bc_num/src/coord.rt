//! The limit of the coordinates of an input, and a whole number that is within it. `specs/Sizes` says what a coordinate
//! is.
ghost use Rattle.std.specs.Prelude.{◌≡◌, ◌≤◌, ◌↔◌, unsigned_abs, IsSome, IfSome};
ghost use Rattle.bc_num.specs.Sizes.{IsCoord};

use std::marker::Model;

/// The greatest coordinate of an input: coordinates are from -1023 to 1023.
pub const MOST_COORD: u64 = 1023;

/// A coordinate of an input's vertex, end or centre: a whole number from -1023 to 1023.
#[derive(Clone, Copy, Debug, PartialEq, Eq)]
pub struct Coord {
    value: i64,
}

impl Model for Coord {
    ghost use Rattle.std.specs.Prelude.{ℤ};
    ghost use Rattle.bc_num.specs.Sizes.{IsCoord};

    ghost Value = { ℤ };

    ghost view = { λ c. c.value };

    ghost invariant = { λ c. IsCoord c.value };

    ghost inverse = { λ z. record { value = z } };
}

impl Coord {
    /// The number as a coordinate. `None` exactly where it is outside -1023 to 1023.
    pub fn new(v: i64) -> Option<Coord>
        ensures some { IsSome result ↔ IsCoord v }
        ensures value { IfSome result (λ c. c ≡ v) }
    {
        if v.unsigned_abs() <= MOST_COORD {
            Some(Coord { value: v })
        } else {
            None
        }
    }

    /// The number, from -1023 to 1023.
    pub fn get(self) -> i64
        ensures value { result ≡ self }
        ensures near { IsCoord result }
    {
        self.value
    }
}
