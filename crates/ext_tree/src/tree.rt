ghost use Rattle.std.specs.Prelude.{◌≡◌, ◌≤◌, nat_le, [], length, OnOk, OnErr};
ghost use Rattle.std.specs.Option.{option_copied};
ghost use Rattle.std.specs.FinMap.{put};
ghost use Rattle.std.specs.List.{insert};
ghost use Rattle.ext_text.specs.Path.{path_cmp};
ghost use Rattle.ext_tree.specs.Tree.{IsTree, IsTreeWithin, lookup, most_entries};
ghost use Rattle.ext_tree.specs.InsertionPoint.{insertion_point};
ghost use Rattle.ext_tree.specs.Refusals.{Refuses, insert_refusal};

use crate::entry::Entry;
use crate::insertion_point::{entry_at, entry_of, insertion_point_of, is_directory_or_root};
use ext_lines::OutOfMemory;
use ext_text::{Path, PathRef};
use std::alloc::Global;
use std::marker::Model;
use thiserror::Error;

/// The most entries of a tree.
pub const MOST_ENTRIES: usize = 262_144;

/// Why a tree refuses a change.
#[derive(Clone, Copy, Debug, PartialEq, Eq, Error)]
pub enum TreeErr {
    /// An allocation failed.
    #[error("out of memory")]
    OutOfMemory,
    /// An entry stands there, or the path is the root.
    #[error("an entry stands there")]
    Exists,
    /// A non-empty proper prefix of the path is absent or no directory.
    #[error("a prefix of the path is no directory")]
    NotDirectory,
    /// The tree has 262,144 entries.
    #[error("more than 262,144 entries")]
    Limit,
    /// A path grows past its limits.
    #[error("a path grows past its limits")]
    Path,
}

impl From<OutOfMemory> for TreeErr {
    ghost use Rattle.std.specs.Prelude.{◌≡◌};
    ghost use Rattle.ext_tree.specs.declared.tree.TreeErr.TheVariants as errors;

    ghost from_gives = { λ _ e. e ≡ errors.OutOfMemory };

    fn from(_failed: OutOfMemory) -> TreeErr {
        TreeErr::OutOfMemory
    }
}

/// A finite map from paths to entries in which there is a directory at every non-empty proper prefix of a path. It has at
/// most 262,144 entries. Contracts see it as the list of its entries in path order.
#[derive(Drop)]
pub struct Tree<C> {
    pub(crate) entries: Vec<(Path, Entry<C>)>,
}

impl<C> Model for Tree<C> {
    ghost use Rattle.ext_tree.specs.Tree.{Entries, IsTreeWithin};

    ghost Value = { Entries C };

    ghost view = { λ t. t.entries.items };

    ghost invariant = { λ t. IsTreeWithin t.entries.items };
}

impl<C> Tree<C> {
    /// The empty tree.
    pub fn new(alloc: Global) -> Tree<C>
        ensures { result ≡ [] }
    {
        Tree {
            entries: Vec::new(alloc),
        }
    }

    /// The tree of these entries, which are not copied.
    pub fn from_pairs(entries: Vec<(Path, Entry<C>)>) -> Tree<C>
        requires { IsTreeWithin entries.items }
        ensures { result ≡ entries.items }
    {
        Tree { entries }
    }

    /// The entries with their paths, in path order.
    pub fn pairs(&self) -> &[(Path, Entry<C>)]
        ensures same { result.now ≡ self.now }
        ensures tree { IsTreeWithin self.now }
    {
        self.entries.as_slice()
    }

    /// The entries with their paths, in path order, which are not copied.
    pub fn into_pairs(self) -> Vec<(Path, Entry<C>)>
        ensures same { result.items ≡ self }
        ensures tree { IsTreeWithin result.items }
    {
        self.entries
    }

    /// What stands at the path; `None` exactly where nothing does.
    pub fn get(&self, path: &Path) -> Option<&Entry<C>>
        ensures { option_copied result ≡ lookup self.now path.now }
    {
        self.entry_at(&path.names())
    }

    /// What stands at the path of these names; `None` exactly where nothing does.
    pub fn entry_at(&self, names: &PathRef) -> Option<&Entry<C>>
        ensures { option_copied result ≡ lookup self.now names.now }
    {
        entry_of(self.entries.as_slice(), names)
    }

    /// How many entries there are.
    pub fn entries(&self) -> u64
        ensures count { result ≡ length self.now }
        ensures within { result ≤ most_entries }
    {
        self.entries.len() as u64
    }

    /// Where the entries have their memory.
    pub fn allocator(&self) -> Global {
        *self.entries.allocator()
    }
}

impl<C: Drop> Tree<C> {
    /// Puts an entry at a path where none stands.
    ///
    /// # Errors
    /// The first of these:
    ///
    /// - `Exists` exactly where an entry stands there or the path is the root.
    /// - `NotDirectory` exactly where a non-empty proper prefix of the path is absent or no directory.
    /// - `Limit` exactly at 262,144 entries.
    ///
    /// `OutOfMemory` comes only where none of them does, and `Path` never. After any of them the tree is as before.
    pub fn insert(&mut self, path: Path, entry: Entry<C>) -> Result<(), TreeErr>
        ensures ok { OnOk result (self.new ≡ put path_cmp path entry self.old) }
        ensures refused { Refuses result (insert_refusal self.old path) }
        ensures err { OnErr result (self.new ≡ self.old) }
    {
        let entries = self.entries.as_slice();
        let index = insertion_point_of(entries, &path.names());
        match refusal_at(entries, &path, index) {
            Some(refusal) => Err(refusal),
            None => Ok(insert_at(&mut self.entries, index, (path, entry))?),
        }
    }
}

// Whether no more entries fit.
fn is_full(entries: usize) -> bool
    ensures { result ≡ nat_le most_entries entries }
{
    entries >= MOST_ENTRIES
}

// Why no entry may be put at the path, whose insertion point is known.
fn refusal_at<C>(entries: &[(Path, Entry<C>)], path: &Path, index: usize) -> Option<TreeErr>
    requires tree { IsTree entries.now }
    requires index { index ≡ insertion_point path_cmp path.now entries.now }
    ensures { result ≡ insert_refusal entries.now path.now }
{
    if path.names().is_root() || entry_at(entries, &path.names(), index).is_some() {
        Some(TreeErr::Exists)
    } else if !is_directory_or_root(entries, &path.parent()) {
        Some(TreeErr::NotDirectory)
    } else if is_full(entries.len()) {
        Some(TreeErr::Limit)
    } else {
        None
    }
}

// Puts an entry at an index.
fn insert_at<C: Drop>(
    entries: &mut Vec<(Path, Entry<C>)>,
    index: usize,
    entry: (Path, Entry<C>),
) -> Result<(), OutOfMemory>
    requires { index ≤ length entries.old.items }
    ensures ok { OnOk result (entries.new.items ≡ insert entries.old.items index entry) }
    ensures err { OnErr result (entries.new.items ≡ entries.old.items) }
{
    entries.insert(index, entry)?;
    Ok(())
}
