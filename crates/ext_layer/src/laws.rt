//! Laws of layered trees, each the contract of a function that does nothing: what holds of every layered tree, whoever
//! made it.
ghost use Rattle.ext_layer.specs.Laws.{EntriesAreOfLayers, FilesAreOfLayers, LayeredHasText, LowerEqualShowsNothing, NothingHides, OneLayeredTree};

/// Layers have one layered tree.
pub fn one_layered_tree<C>()
    ensures { OneLayeredTree C }
{}

/// Each entry of a layered tree is an entry of one of the layers, at the same path, an opaque directory as a directory.
/// So each file is a file of one of them: nothing is made up.
pub fn entries_are_of_layers<C>()
    ensures entries { EntriesAreOfLayers C }
    ensures files { FilesAreOfLayers C }
{}

/// A layered tree has no whiteout and no opaque directory: it can be laid under other layers, or merged again, and hides
/// nothing.
pub fn nothing_hides<C>()
    ensures { NothingHides C }
{}

/// The layered tree of trees that have texts has a text too, where it has at most 262,144 entries: so it is read back
/// from what it is written as.
pub fn layered_has_text()
    ensures { LayeredHasText }
{}

/// Of two layers with equal entries the lower one shows nothing, and hides nothing that the upper one does not: without it
/// the layered tree is the same. So many links to one image cost one layer.
pub fn a_lower_equal_layer_shows_nothing<C>()
    ensures { LowerEqualShowsNothing C }
{}
