//! The laws of the parts of a carving, over the definitions alone.
ghost use Rattle.bc_carved.specs.Laws.{PartsAreCuts, PartsStand, PartsShare, PlacesRise};

/// The parts of a carving are its pieces, half-spaces and holes, in the order in which they are taken out. Each part that has a
/// place stands there in the tree, and these places ascend strictly. A part without a place has that of the part before it.
pub fn parts_law()
    ensures cuts { PartsAreCuts }
    ensures stand { PartsStand }
    ensures share { PartsShare }
    ensures rise { PlacesRise }
{}
