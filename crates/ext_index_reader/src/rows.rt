ghost use Rattle.std.specs.Prelude.{◌≡◌, ◌↔◌, [], ◌∷◌, ◌++◌, length, IsTrue, OnOk};
ghost use Rattle.ext_host.specs.Held.{HeldFile};
ghost use Rattle.ext_tree.specs.Tree.{IsTree, IsTreeWithin};
ghost use Rattle.ext_tree.specs.declared.entry.Entry.{Entry};

use ext_host::Held;
use ext_lines::OutOfMemory;
use ext_text::Path;
use ext_tree::{Entry, MOST_ENTRIES, Tree, may_follow};
use std::alloc::Global;
use std::marker::Model;

/// A tree that is read entry by entry, in path order. Contracts see it as the list of its entries.
#[derive(Drop)]
pub(crate) struct Rows {
    entries: Vec<(Path, Entry<Held>)>,
}

impl Model for Rows {
    ghost use Rattle.ext_host.specs.Held.{HeldFile};
    ghost use Rattle.ext_tree.specs.Tree.{Entries, IsTreeWithin};

    ghost Value = { Entries HeldFile };

    ghost view = { λ r. r.entries.items };

    ghost invariant = { λ r. IsTreeWithin r.entries.items };
}

impl Rows {
    /// No entries so far.
    pub(crate) fn new(alloc: Global) -> Rows
        ensures { result ≡ [] }
    {
        Rows {
            entries: Vec::new(alloc),
        }
    }

    /// Makes room for so many more, and for no more than a tree may have.
    ///
    /// # Errors
    /// Out of memory alone.
    pub(crate) fn make_room(&mut self, count: u64) -> Result<(), OutOfMemory>
        ensures { self.new ≡ self.old }
    {
        self.entries.reserve(room_for(count))?;
        Ok(())
    }

    /// How many there are.
    pub(crate) fn len(&self) -> usize
        ensures { result ≡ length self.now }
    {
        self.entries.len()
    }

    /// Whether they are a tree with one more at this path, whatever stands there.
    pub(crate) fn may_follow(&self, path: &Path) -> bool
        ensures { (e : Entry HeldFile) → (IsTrue result ↔ IsTree (self.now ++ (path.now, e) ∷ [])) }
    {
        may_follow(self.entries.as_slice(), path)
    }

    /// Adds an entry at the end, where they are a tree with it.
    ///
    /// # Errors
    /// Out of memory alone.
    pub(crate) fn push(&mut self, path: Path, entry: Entry<Held>) -> Result<(), OutOfMemory>
        requires { IsTreeWithin (self.old ++ (path, entry) ∷ []) }
        ensures { OnOk result (self.new ≡ self.old ++ (path, entry) ∷ []) }
    {
        self.entries.push((path, entry))?;
        Ok(())
    }

    /// The tree, whose entries are not copied.
    pub(crate) fn into_tree(self) -> Tree<Held>
        ensures { result ≡ self }
    {
        Tree::from_pairs(self.entries)
    }
}

// So many, and no more than a tree may have.
fn room_for(count: u64) -> usize {
    match usize::try_from(count) {
        Ok(count) => count.min(MOST_ENTRIES),
        Err(_) => MOST_ENTRIES,
    }
}
