// Equal trees.
ghost use Rattle.std.specs.Prelude.{◌≡◌, ◌++◌, IfOk, OnOk};

use crate::entry::{Entry, Held1};
use crate::tree::Tree;
use ext_lines::OutOfMemory;
use ext_text::Path;
use std::alloc::Global;

impl<C: Held1 + Drop> Tree<C> {
    /// An equal tree.
    ///
    /// # Errors
    /// Out of memory alone.
    pub fn copy(&self) -> Result<Tree<C>, OutOfMemory>
        ensures { IfOk result (λ copy. copy ≡ self.now) }
    {
        let copies = copies_of(self.allocator(), self.pairs())?;
        Ok(Tree::from_pairs(copies))
    }
}

// Equal entries with equal paths.
pub(crate) fn copies_of<C: Held1 + Drop>(
    alloc: Global,
    pairs: &[(Path, Entry<C>)],
) -> Result<Vec<(Path, Entry<C>)>, OutOfMemory>
    ensures { IfOk result (λ copies. copies.items ≡ pairs.now) }
{
    let mut copies = Vec::with_capacity(alloc, pairs.len())?;
    append_pairs(alloc, &mut copies, pairs)?;
    Ok(copies)
}

/// Appends copies of entries, with equal paths.
///
/// # Errors
/// Out of memory alone.
pub fn append_pairs<C: Held1 + Drop>(
    alloc: Global,
    copies: &mut Vec<(Path, Entry<C>)>,
    pairs: &[(Path, Entry<C>)],
) -> Result<(), OutOfMemory>
    ensures { OnOk result (copies.new.items ≡ copies.old.items ++ pairs.now) }
{
    for pair in pairs {
        copies.push(copy_of(alloc, pair)?)?;
    }
    Ok(())
}

// An equal entry with an equal path.
fn copy_of<C: Held1 + Drop>(
    alloc: Global,
    pair: &(Path, Entry<C>),
) -> Result<(Path, Entry<C>), OutOfMemory>
    ensures { IfOk result (λ copy. copy ≡ pair.now) }
{
    let path = pair.0.copy()?;
    let entry = pair.1.copy(alloc)?;
    Ok((path, entry))
}
