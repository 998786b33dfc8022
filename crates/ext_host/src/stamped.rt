// Trees whose files are known by their stamps alone.
ghost use Rattle.std.specs.Prelude.{◌≡◌, IfOk};
ghost use Rattle.ext_host.specs.Held.{HeldFile};
ghost use Rattle.ext_host.specs.Stamped.{AreStamps, stamped_entry, stamps};

use crate::held::Held;
use ext_text::{OutOfMemory, Path};
use ext_tree::{Entry, Stamp, Tree};
use std::alloc::Global;

/// The same tree with each file's stamp alone.
///
/// # Errors
/// `OutOfMemory` alone.
pub fn stamps(alloc: Global, tree: &Tree<Held>) -> Result<Tree<Stamp>, OutOfMemory>
    ensures same { IfOk result (λ copy. copy ≡ stamps tree.now) }
    ensures each { IfOk result (λ copy. AreStamps tree.now copy) }
{
    let pairs = stamped_pairs(alloc, tree.pairs())?;
    Ok(Tree::from_pairs(pairs))
}

// Copies of entries, each file's with its stamp alone.
fn stamped_pairs(
    alloc: Global,
    pairs: &[(Path, Entry<Held>)],
) -> Result<Vec<(Path, Entry<Stamp>)>, OutOfMemory>
    ensures { IfOk result (λ copies. copies.items ≡ stamps pairs.now) }
{
    let mut copies = Vec::with_capacity(alloc, pairs.len())?;
    for pair in pairs {
        copies.push(stamped_pair(pair)?)?;
    }
    Ok(copies)
}

fn stamped_pair(pair: &(Path, Entry<Held>)) -> Result<(Path, Entry<Stamp>), OutOfMemory>
    ensures { IfOk result (λ copy. copy ≡ (pair.now.0, stamped_entry pair.now.1)) }
{
    let path = pair.0.copy()?;
    let entry = stamped_entry(&pair.1)?;
    Ok((path, entry))
}

fn stamped_entry(entry: &Entry<Held>) -> Result<Entry<Stamp>, OutOfMemory>
    ensures { IfOk result (λ copy. copy ≡ stamped_entry entry.now) }
{
    match entry {
        Entry::Dir(attributes) => Ok(Entry::Dir(*attributes)),
        Entry::Opaque(attributes) => Ok(Entry::Opaque(*attributes)),
        Entry::File(attributes, held) => Ok(Entry::File(attributes.copy()?, *held.stamp())),
        Entry::Link(owner, target) => Ok(Entry::Link(*owner, target.copy()?)),
        Entry::Hide => Ok(Entry::Hide),
    }
}
