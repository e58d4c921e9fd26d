//! What holds of every contour text: it has one reading at most, and the contours of a reading are closed and within
//! the limits. `specs/Laws` has the statements.
ghost use Rattle.bc_gcode.specs.Laws.{ReadAreContours, HasOneReading, HasOneFault, HasNoBoth};

/// A text has at most one list of contours or one first fault, and not both.
pub fn one_reading_law()
    ensures contours { HasOneReading }
    ensures fault { HasOneFault }
    ensures either { HasNoBoth }
{}

/// Contours that a text leads to are closed paths of elements within the range of coordinates, at most 512 in all.
pub fn contours_law()
    ensures { ReadAreContours }
{}
