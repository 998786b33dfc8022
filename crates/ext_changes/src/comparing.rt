// What differs between two trees, or at and below a path of both.
ghost use Rattle.std.specs.Prelude.{IfOk};
ghost use Rattle.ext_changes.specs.Changes.{AreChanges, AreChangesBelow};
ghost use Rattle.ext_changes.specs.Told.{all_told};

use crate::change::Change;
use crate::sameness::kind_of;
use crate::stamped::Stamped;
use crate::walking::{change_of, push_changes, push_found};
use ext_text::{OutOfMemory, Path};
use ext_tree::Tree;
use std::alloc::Global;

/// The changes from the earlier to the later tree: each path at which they differ, once and in path order, with how. The
/// paths are borrowed from the trees. It is one pass over both, and it takes memory for the changes alone, two words for each.
///
/// # Errors
/// `OutOfMemory` alone.
pub fn changes<'a, A: Stamped, B: Stamped>(
    alloc: Global,
    earlier: &'a Tree<A>,
    later: &'a Tree<B>,
) -> Result<Vec<Change<'a>>, OutOfMemory>
    ensures { IfOk result (λ changes. AreChanges A.stamp B.stamp earlier.now later.now (all_told changes.items)) }
{
    let mut changes = Vec::new(alloc);
    push_changes(&mut changes, earlier.pairs(), later.pairs())?;
    Ok(changes)
}

/// The changes from the earlier to the later tree at and below a path, as [`changes`] gives them: at and below the root
/// these are all. Where the path itself is one of them, it is borrowed from the caller. It is a search in both trees, and
/// one pass over what they have below the path.
///
/// # Errors
/// `OutOfMemory` alone.
pub fn changes_below<'a, A: Stamped, B: Stamped>(
    alloc: Global,
    earlier: &'a Tree<A>,
    later: &'a Tree<B>,
    prefix: &'a Path,
) -> Result<Vec<Change<'a>>, OutOfMemory>
    ensures { IfOk result (λ changes. AreChangesBelow A.stamp B.stamp prefix.now earlier.now later.now (all_told changes.items)) }
{
    let mut changes = Vec::new(alloc);
    let kind = kind_of(earlier.get(prefix), later.get(prefix));
    push_found(&mut changes, change_of(prefix, kind))?;
    let names = prefix.names();
    push_changes(&mut changes, earlier.below(&names), later.below(&names))?;
    Ok(changes)
}
