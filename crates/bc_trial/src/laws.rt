//! Laws of the generated texts, over the definitions alone.
ghost use Rattle.bc_trial.specs.Laws.{StairsAreInputs, PlatesAreInputs};

/// The text of each stair is an OFF text of at most 2^20 bytes, its mesh is closed, and its planes are within the limit.
pub fn off_law()
    ensures { StairsAreInputs }
{}

/// The text of each plate is a contour text of at most 2^20 bytes, its contours are closed, and their lines and discs are within
/// the limits.
pub fn contour_law()
    ensures { PlatesAreInputs }
{}
