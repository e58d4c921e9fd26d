//! Laws of the reader, over the definitions alone: a text has one reading, and a mesh that it says is within the
//! limits.
ghost use Rattle.bc_off.specs.Laws.{ReadAreMeshes, HasOneReading, HasOneFault, HasNoBoth};

/// A text has at most one mesh or one first fault, and not both.
pub fn one_reading_law()
    ensures mesh { HasOneReading }
    ensures fault { HasOneFault }
    ensures either { HasNoBoth }
{}

/// A mesh that a text says has at most 1024 vertices with coordinates within 1023, and at most 2048 faces, each of 3 to 64
/// of its vertices.
pub fn meshes_law()
    ensures { ReadAreMeshes }
{}
