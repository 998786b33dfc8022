// A tree without a path and all that is below it, or without many.
ghost use Rattle.std.specs.Prelude.{◌≡◌, not};
ghost use Rattle.ext_text.specs.Path.{is_prefix};
ghost use Rattle.ext_text.specs.SortedPaths.{covers};
ghost use Rattle.ext_tree.specs.Cut.{IsCut, IsCutAll, cut, cut_all};

use crate::entry::Entry;
use crate::tree::Tree;
use ext_text::{Path, PathRef, SortedPaths};

impl<C: Drop> Tree<C> {
    /// Takes the entry at the path away, and all that is below it, or nothing where there is none. At the root the tree
    /// is emptied. It takes no memory.
    pub fn cut(&mut self, path: &Path)
        ensures same { self.new ≡ cut path.now self.old }
        ensures each { IsCut self.old path.now self.new }
    {
        cut_entries(&mut self.entries, &path.names());
    }

    /// Takes the entries at these paths away, and all that is below one of them. It takes no memory. It is one pass over
    /// the entries, with a search among the paths for each prefix of an entry's path.
    pub fn cut_all(&mut self, paths: &SortedPaths)
        ensures same { self.new ≡ cut_all paths.now self.old }
        ensures each { IsCutAll self.old paths.now self.new }
    {
        cut_all_entries(&mut self.entries, paths);
    }
}

// Takes the entries at and below the path away.
pub(crate) fn cut_entries<C: Drop>(entries: &mut Vec<(Path, Entry<C>)>, names: &PathRef)
    ensures { entries.new.items ≡ cut names.now entries.old.items }
{
    entries.retain(|entry| is_outside(names, entry));
}

// Takes the entries at and below the paths away.
fn cut_all_entries<C: Drop>(entries: &mut Vec<(Path, Entry<C>)>, paths: &SortedPaths)
    ensures { entries.new.items ≡ cut_all paths.now entries.old.items }
{
    entries.retain(|entry| is_outside_all(paths, entry));
}

// Whether the entry is neither at the path nor below it.
fn is_outside<C>(names: &PathRef, entry: &(Path, Entry<C>)) -> bool
    ensures { result ≡ not (is_prefix names.now entry.now.0) }
{
    !entry.0.names().starts_with(names)
}

// Whether the entry is neither at one of the paths nor below one.
fn is_outside_all<C>(paths: &SortedPaths, entry: &(Path, Entry<C>)) -> bool
    ensures { result ≡ not (covers paths.now entry.now.0) }
{
    !paths.covers(&entry.0.names())
}
