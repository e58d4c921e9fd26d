//! Laws of joined texts. Each is a function that does nothing: its promise is the law.
ghost use Rattle.bc_pair.specs.Parts.{OneSplit, NoSplit};

/// A text has at most one pair of parts, and none where no line separates.
pub fn split_law()
    ensures one { OneSplit }
    ensures none { NoSplit }
{}
