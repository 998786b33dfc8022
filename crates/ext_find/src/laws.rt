//! Laws of searches, each the contract of a function that does nothing: what holds of every search through every tree.
ghost use Rattle.ext_find.specs.Laws.{OneFound, OneItem};

use crate::content::Measured;

/// An entry of a search directory gives one item, or none: never two with another place or of another kind.
pub fn an_entry_gives_one_item<C: Measured>()
    ensures { OneItem C.size }
{}

/// There is one found list: what a search finds follows from the tree, the class, the architecture and the hierarchies.
pub fn there_is_one_found_list<C: Measured>()
    ensures { OneFound C.size }
{}
