//! Laws of the places of notes.
ghost use Rattle.bc_notes.specs.Laws.{PlacesLaw};

/// The noted nodes of the tree of a cover are its terms and its literals, at the numbers and in the order in which they are
/// written.
pub fn places_law()
    ensures { PlacesLaw }
{}
