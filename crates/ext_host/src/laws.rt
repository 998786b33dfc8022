//! Laws of hosts, each the contract of a function that does nothing: what holds of every host, whoever made it.
ghost use Rattle.ext_host.specs.Laws.{BaseIsDrawn, CutIsDrawn, DrawnFromItself, DrawnOneByOne, DrawnThrough, EntriesOfBase, EntriesOfCut, EntriesOfGraft, EntriesOfPart, GraftIsDrawn, PartIsDrawn, TouchedAllIsValid, TouchedIsValid, TouchedOneByOne, TreesAreDrawn, TreesDrawnThrough};

/// A host is drawn from itself, and what is drawn from a host that is drawn from another is drawn from that one: so it is
/// enough that each step of a command is.
pub fn drawing_goes_on()
    ensures itself { DrawnFromItself }
    ensures through { DrawnThrough }
{}

/// What is drawn of trees goes on in the same way. Trees are drawn from others where each of them by itself is, and where
/// each of them is one of those.
pub fn trees_are_drawn_one_by_one()
    ensures through { TreesDrawnThrough }
    ensures each { DrawnOneByOne }
    ensures some { TreesAreDrawn }
{}

/// Each entry of the base, of a part and of a tree without a path is an entry of what it was made from, and so is each of a
/// tree into which a part is hung, the directories that were made aside. A copy is equal.
pub fn entries_are_of_sources<C>()
    ensures base { EntriesOfBase }
    ensures part { EntriesOfPart C }
    ensures cut { EntriesOfCut C }
    ensures graft { EntriesOfGraft C }
{}

/// The base, a part, a tree without a path and one into which a part is hung are drawn from what they were made from.
pub fn results_are_drawn()
    ensures base { BaseIsDrawn }
    ensures part { PartIsDrawn }
    ensures cut { CutIsDrawn }
    ensures graft { GraftIsDrawn }
{}

/// A valid host of which a path is touched is valid, and so is one of which many are. Touching many leaves what touching
/// one after the other does.
pub fn a_touched_host_is_valid()
    ensures one { TouchedIsValid }
    ensures all { TouchedAllIsValid }
    ensures in_turn { TouchedOneByOne }
{}
