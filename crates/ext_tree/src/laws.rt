//! Laws of trees and of their texts, each the contract of a function that does nothing: what holds of every tree and of
//! every text, whoever made it.
ghost use Rattle.ext_tree.specs.FirstFault.{IsOne, AtLeastOne};
ghost use Rattle.ext_tree.specs.Laws.{DirectoriesHavePrefixes, EntriesHavePrefixes, FaultOfNoSequence, FaultOfNoText, NoFaultInSequence, NoFaultInText, NoPrefixOfText, OneFirstFault, OneListOfSequence, OneTextOfTree, OneTreeOfText, PrefixesBegin};

/// In every tree each non-empty proper prefix of an entry's path is a directory. And the parent of a path below the root
/// is a directory or the root exactly where each such prefix of that path is a directory: so an insert answers
/// `NotDirectory` exactly where one is absent or no directory.
pub fn every_prefix_is_a_directory<C>()
    ensures entries { EntriesHavePrefixes C }
    ensures directories { DirectoriesHavePrefixes C }
{}

/// A text belongs to one tree.
pub fn one_tree_of_text()
    ensures { OneTreeOfText }
{}

/// A tree has one text.
pub fn one_text_of_tree()
    ensures { OneTextOfTree }
{}

/// No tree text is a proper prefix of another: a reader knows where a text ends.
pub fn no_prefix_of_text()
    ensures { NoPrefixOfText }
{}

/// A sequence of texts is that of one list of trees.
pub fn one_list_of_sequence()
    ensures { OneListOfSequence }
{}

/// A tree text has no first faulty line, and bytes that are none have exactly one.
pub fn first_fault_of_text()
    ensures none { NoFaultInText }
    ensures some { FaultOfNoText }
    ensures one { OneFirstFault IsOne }
{}

/// A sequence of texts has no first faulty line, since with each prefix of its lines a sequence begins. Bytes that are
/// none have exactly one.
pub fn first_fault_of_sequence()
    ensures none { NoFaultInSequence }
    ensures begins { PrefixesBegin }
    ensures some { FaultOfNoSequence }
    ensures one { OneFirstFault AtLeastOne }
{}
