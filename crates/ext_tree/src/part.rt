// What stands below a path, as a tree of its own.
ghost use Rattle.std.specs.Prelude.{◌≡◌, map, IfOk};
ghost use Rattle.std.specs.List.{AllByRecursion};
ghost use Rattle.ext_text.specs.Path.{is_proper_prefix};
ghost use Rattle.ext_tree.specs.Part.{IsPart, part, part_refusal, seen_from};
ghost use Rattle.ext_tree.specs.Refusals.{Refuses};

use crate::entry::{Entry, Held1};
use crate::insertion_point::is_directory_or_root;
use crate::tree::{Tree, TreeErr};
use ext_lines::OutOfMemory;
use ext_text::Path;
use std::alloc::Global;

impl<C: Held1 + Drop> Tree<C> {
    /// The entries below the path, copied, with that prefix taken off. Below the root that is the whole tree.
    ///
    /// # Errors
    /// `NotDirectory` exactly where the path is neither the root nor a directory. `OutOfMemory` comes only where it is
    /// one of them, and nothing else.
    pub fn part(&self, path: &Path) -> Result<Tree<C>, TreeErr>
        ensures same { IfOk result (λ tree. tree ≡ part path.now self.now) }
        ensures each { IfOk result (λ tree. IsPart self.now path.now tree) }
        ensures refused { Refuses result (part_refusal self.now path.now) }
    {
        if !is_directory_or_root(self.pairs(), &path.names()) {
            return Err(TreeErr::NotDirectory);
        }
        let entries = copies_from(self.allocator(), self.below(&path.names()), path)?;
        Ok(Tree::from_pairs(entries))
    }
}

// Copies of entries below a path, with that prefix taken off.
fn copies_from<C: Held1 + Drop>(
    alloc: Global,
    pairs: &[(Path, Entry<C>)],
    prefix: &Path,
) -> Result<Vec<(Path, Entry<C>)>, OutOfMemory>
    ensures { IfOk result (λ copies. copies.items ≡ map (seen_from prefix.now) pairs.now) }
{
    let mut copies = Vec::with_capacity(alloc, pairs.len())?;
    for pair in pairs {
        copies.push(copy_from(alloc, pair, prefix)?)?;
    }
    Ok(copies)
}

// A copy of an entry, with the prefix taken off its path.
fn copy_from<C: Held1 + Drop>(
    alloc: Global,
    pair: &(Path, Entry<C>),
    prefix: &Path,
) -> Result<(Path, Entry<C>), OutOfMemory>
    ensures { IfOk result (λ copy. copy ≡ seen_from prefix.now pair.now) }
{
    let path = pair.0.rest(prefix.depth())?;
    let entry = pair.1.copy(alloc)?;
    Ok((path, entry))
}
