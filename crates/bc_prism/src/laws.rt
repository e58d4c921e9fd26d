//! Laws of texts of layers, over the definitions alone.
ghost use Rattle.bc_prism.specs.Sections.{HeightsAreLawful, SectionsAreShort};
ghost use Rattle.bc_prism.specs.Laws.{SpellsOneList, LayoutSpellsLayers, PrismHeadLines, LayersAreNoTree, NoTreeBeginsSo, NoLayersAreEmpty, LawfulAreLayers};

/// A text spells at most one list of layers.
pub fn one_list_law()
    ensures { SpellsOneList }
{}

/// The layout of layers spells them, and its first two lines say its kind and its box.
pub fn layers_layout_law()
    ensures spells { LayoutSpellsLayers }
    ensures lines { PrismHeadLines }
{}

/// A text of layers spells no tree, but for that of none, which spells the empty union.
pub fn no_tree_law()
    ensures some { LayersAreNoTree }
    ensures begins { NoTreeBeginsSo }
    ensures none { NoLayersAreEmpty }
{}

/// Each section of each text has heights within their range, the first one below the second, and is no longer than the text.
/// Lawful layers are those that `prisms` takes.
pub fn heights_law()
    ensures heights { HeightsAreLawful }
    ensures short { SectionsAreShort }
    ensures layers { LawfulAreLayers }
{}
