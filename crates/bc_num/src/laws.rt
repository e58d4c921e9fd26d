//! What holds of every number at the front of bytes. `whole` takes such a number, and `specs/Fronts` has the
//! statements.
ghost use Rattle.bc_num.specs.Fronts.{FrontIsNumber, FrontIsLongest};

/// What `number_len` takes from the front of some bytes is a number, and it is taken as long as it goes: no longer front
/// is a number.
pub fn front_law()
    ensures number { FrontIsNumber }
    ensures longest { FrontIsLongest }
{}
