//! Laws of the reader, over the definitions alone.

ghost use Rattle.bc_read.specs.Laws.{SpelledIsRead, ReadIsSpelled, HasTreeOrFault, FaultSpellsNone, HasOneFault, BadFrameExactly, PrintedIsRead, FrontGoesOn};
ghost use Rattle.bc_read.specs.Upgrade.{FlatIsSaid, UpgradeKeeps, UpgradeTwice};

/// A text is read as the tree that it spells, and spells the tree that it is read as.
pub fn spelled_law()
    ensures spelled { SpelledIsRead }
    ensures read { ReadIsSpelled }
{}

/// A text spells a tree or has a first fault, and not both. It has at most one first fault.
pub fn one_answer_law()
    ensures either { HasTreeOrFault }
    ensures both { FaultSpellsNone }
    ensures fault { HasOneFault }
{}

/// At a leaf's `;`, `BadFrame` comes exactly where the numbers are those of no leaf, in either spelling.
pub fn frame_law()
    ensures { BadFrameExactly }
{}

/// The layout of a tree that the grammar allows is read as that tree, whatever its head and notes are.
pub fn printed_law()
    ensures { PrintedIsRead }
{}

/// No fault is told too late: tokens without one are the first tokens of a tree that the grammar allows, also where they end
/// inside a leaf and the numbers so far begin those of a leaf that may stand there, in either spelling. Inside every other
/// leaf some text leads on to its `;`, where it is at fault.
pub fn front_law()
    ensures { FrontGoesOn }
{}

/// An upgrade writes the layout, without a box and without notes, of the tree that a text spells; its head says whether a leaf
/// of the plane stands in the tree. What it writes spells the same tree, and its own upgrade is the same bytes.
pub fn upgrade_law()
    ensures flat { FlatIsSaid }
    ensures keeps { UpgradeKeeps }
    ensures twice { UpgradeTwice }
{}
