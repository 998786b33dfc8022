// Whether names lead to a file that is not empty, once links are followed.
ghost use Rattle.std.specs.Prelude.{◌≡◌, ◌↔◌, ◌++◌, IsTrue, IfOk};
ghost use Rattle.ext_tree.specs.Tree.{lookup};
ghost use Rattle.ext_walk.specs.Leads.{LeadsTo};
ghost use Rattle.ext_find.specs.Content.{is_full_at};

use crate::content::{Measured, is_full};
use ext_text::{OutOfMemory, PathRef};
use ext_tree::Tree;
use ext_walk::end_of_path;
use std::alloc::Global;

// Whether the names lead from the tree's root to a file that is not empty.
pub(crate) fn leads_to_full<C: Measured>(
    alloc: Global,
    tree: &Tree<C>,
    names: &PathRef,
) -> Result<bool, OutOfMemory>
    ensures { IfOk result (λ leads. IsTrue leads ↔ LeadsTo (is_full_at C.size) tree.now names.now) }
{
    let _entries = tree.pairs();
    match end_of_path(alloc, tree, &PathRef::root(), names)? {
        None => Ok(false),
        Some(end) => Ok(is_full_at(tree, &end)),
    }
}

// Whether a file that is not empty stands there.
fn is_full_at<C: Measured>(tree: &Tree<C>, names: &PathRef) -> bool
    ensures { result ≡ is_full_at C.size (lookup tree.now names.now) }
{
    match tree.entry_at(names) {
        None => false,
        Some(entry) => is_full(entry),
    }
}

// Both texts, one after the other.
pub(crate) fn joined(alloc: Global, first: &[u8], second: &[u8]) -> Result<Vec<u8>, OutOfMemory>
    ensures { IfOk result (λ text. text.items ≡ first.now ++ second.now) }
{
    let mut text = Vec::with_capacity(alloc, first.len().saturating_add(second.len()))?;
    text.extend_from_slice(first)?;
    text.extend_from_slice(second)?;
    Ok(text)
}
