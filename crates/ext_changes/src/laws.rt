//! Laws of changes, each the contract of a function that does nothing: what holds of the changes between any two trees.
ghost use Rattle.ext_changes.specs.Laws.{BelowOfAll, EachDiffers, NoneOfEqual, NoneWhereAlike, OneList, OneListBelow, OneListOfText, PathsOfTrees, TurnedTheOtherWay};

/// Two trees have one list of changes, and one at and below each path: the order of the lines is settled too.
pub fn one_list<A, B>()
    ensures whole { OneList A B }
    ensures below { OneListBelow A B }
{}

/// Trees without a change are equal, and equal trees are without a change. Where a tree tells more of a file than its
/// stamp, as where its bytes are, trees are alike that have equal entries but for that.
pub fn none_of_equal<A, B>()
    ensures stamps { NoneOfEqual }
    ensures alike { NoneWhereAlike A B }
{}

/// At the path of each change the trees differ.
pub fn each_differs<A, B>()
    ensures { EachDiffers A B }
{}

/// The changes from the later tree back to the earlier one are those from the earlier to the later, with what was added and
/// what was removed exchanged.
pub fn turned_the_other_way<A, B>()
    ensures { TurnedTheOtherWay A B }
{}

/// The changes at and below a path are those of all changes that have a path there.
pub fn below_of_all<A, B>()
    ensures { BelowOfAll A B }
{}

/// The lines of changes are those of one list, where each path is within the limits of one, as the paths of trees are: so
/// whoever reads the lines knows what differs.
pub fn one_list_of_text<A, B>()
    ensures paths { PathsOfTrees A B }
    ensures text { OneListOfText }
{}
