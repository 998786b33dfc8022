// Where names lead, once links are followed: to a directory or the root, or to none.
ghost use Rattle.std.specs.Prelude.{ℕ, List, [], IfOk};
ghost use Rattle.ext_walk.specs.Leads.{DirectoryAt};
ghost use Rattle.ext_walk.specs.Walk.{ResolvesIn, parts};

use crate::resolving::{end_of_path, end_of_text};
use ext_text::{OutOfMemory, PathRef};
use ext_tree::Tree;
use std::alloc::Global;

/// The directory or root to which the names lead from the tree's root, once links are followed, as the names of its own
/// path; `None` exactly where they lead to none.
///
/// # Errors
/// `OutOfMemory` alone.
pub fn directory_at<'a: 'b, 'b, C>(
    alloc: Global,
    tree: &'a Tree<C>,
    names: &PathRef<'b>,
) -> Result<Option<PathRef<'a>>, OutOfMemory>
    ensures { IfOk result (DirectoryAt tree.now names.now) }
{
    let end = end_of_path(alloc, tree, &PathRef::root(), names)?;
    Ok(only_directory(tree, end))
}

/// The directory or root to which the parts of a text between its slashes lead from the tree's root, as the names of its
/// own path; `None` exactly where they lead to none.
///
/// # Errors
/// `OutOfMemory` alone.
pub fn directory_of_text<'a, C>(
    alloc: Global,
    tree: &'a Tree<C>,
    text: &'a [u8],
) -> Result<Option<PathRef<'a>>, OutOfMemory>
    ensures { IfOk result (DirectoryAt tree.now (parts text.now)) }
{
    let end = end_of_text(alloc, tree, &PathRef::root(), text)?;
    Ok(only_directory(tree, end))
}

// The end of a walk where it is a directory or the root.
fn only_directory<'a, C>(tree: &Tree<C>, end: Option<PathRef<'a>>) -> Option<PathRef<'a>>
    ensures { (names : List (List ℕ)) → ResolvesIn tree.now [] names end.entry → DirectoryAt tree.now names result }
{
    // `pairs` says of the tree that it is one.
    let _entries = tree.pairs();
    match end {
        None => None,
        Some(names) => {
            if tree.is_directory_or_root(&names) {
                Some(names)
            } else {
                None
            }
        }
    }
}
