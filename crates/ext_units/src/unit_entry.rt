// What an entry of a directory says of the unit of its name.
ghost use Rattle.std.specs.Prelude.{◌≡◌, ◌++◌, ◌∷◌, ℕ, List, [], IfOk};
ghost use Rattle.ext_tree.specs.Tree.{lookup};
ghost use Rattle.ext_walk.specs.Row.{Stands};
ghost use Rattle.ext_find.specs.Content.{is_file_at};
ghost use Rattle.ext_units.specs.Kept.{EntryAt, FileAt};

use crate::text_set::TextSet;
use crate::unit_names::is_unit_name;
use ext_text::{OutOfMemory, Path, PathRef};
use ext_tree::Tree;
use ext_walk::{Next, end_of_path};
use std::alloc::Global;

// What an entry says that has the name of a unit.
#[derive(Drop)]
pub enum UnitEntry {
    // It leads to no file, so that there is no unit of its name.
    NoFile,
    // It leads to the file at this path.
    Leads(Path),
}

// What the entry that stands at a name of a directory says, if it has the name of a unit of these prefixes.
pub(crate) fn entry_at<C>(
    alloc: Global,
    tree: &Tree<C>,
    prefixes: &TextSet,
    next: &Next<C>,
) -> Result<Option<UnitEntry>, OutOfMemory>
    requires { Stands tree.now next.now }
    ensures { (directory : List (List ℕ)) → next.now.entry.now.0 ≡ directory ++ next.now.name.now ∷ []
        → IfOk result (EntryAt tree.now prefixes.now directory next.now.name.now) }
{
    if !is_unit_name(prefixes, next.name) {
        return Ok(None);
    }
    match file_at(alloc, tree, next)? {
        None => Ok(Some(UnitEntry::NoFile)),
        Some(file) => Ok(Some(UnitEntry::Leads(file))),
    }
}

// The path of the file to which the entry at a name leads. No link is on the way to what stands somewhere, so a file is its own.
fn file_at<C>(alloc: Global, tree: &Tree<C>, next: &Next<C>) -> Result<Option<Path>, OutOfMemory>
    requires { Stands tree.now next.now }
    ensures { IfOk result (FileAt tree.now next.now.entry.now.0) }
{
    // `pairs` says of the tree that it is one.
    let _entries = tree.pairs();
    if next.entry.1.is_file() {
        return Ok(Some(next.entry.0.copy()?));
    }
    file_of(alloc, tree, &next.entry.0.names())
}

// The path of the file to which the names lead from the tree's root.
fn file_of<C>(alloc: Global, tree: &Tree<C>, names: &PathRef) -> Result<Option<Path>, OutOfMemory>
    ensures { IfOk result (FileAt tree.now names.now) }
{
    // `pairs` says of the tree that it is one.
    let _entries = tree.pairs();
    match end_of_path(alloc, tree, &PathRef::root(), names)? {
        None => Ok(None),
        Some(end) => {
            if is_file_at(tree, &end) {
                Ok(Some(Path::of_names(alloc, &end)?))
            } else {
                Ok(None)
            }
        }
    }
}

// Whether a file stands there.
fn is_file_at<C>(tree: &Tree<C>, names: &PathRef) -> bool
    ensures { result ≡ is_file_at (lookup tree.now names.now) }
{
    match tree.entry_at(names) {
        None => false,
        Some(entry) => entry.is_file(),
    }
}
