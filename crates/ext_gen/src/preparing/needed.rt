// The generations that a change leaves in the store: the one before, and those in which files of that are kept.
ghost use Rattle.std.specs.Prelude.{◌≡◌, ◌||◌, ℕ, IfOk, OnOk};
ghost use Rattle.std.specs.List.{list_any};
ghost use Rattle.std.specs.Option.{option_copied};
ghost use Rattle.ext_host.specs.Drawn.{trees_of};
ghost use Rattle.ext_store_files.specs.LeftOvers.{has_generation};
ghost use Rattle.ext_gen.specs.Preparing.{has_file_in, is_file_in, is_needed, trees_of_pasts};

use crate::opened::Opened;
use ext_host::{Body, Held, Host, Past};
use ext_text::{OutOfMemory, Path};
use ext_tree::{Entry, Tree};
use std::alloc::Global;
use std::collections::BTreeSet;

/// The generations that are needed, of a store that is empty none.
///
/// # Errors
/// Out of memory alone.
pub(crate) fn needed_generations(
    alloc: Global,
    from: Option<&Opened>,
) -> Result<BTreeSet<u32>, OutOfMemory>
    ensures { IfOk result (λ needed. (n : ℕ) → has_generation needed n ≡ is_needed (option_copied from.entry) n) }
{
    let mut needed = BTreeSet::new(alloc);
    if let Some(opened) = from {
        needed.insert(opened.generation())?;
        add_host(&mut needed, opened.host())?;
    }
    Ok(needed)
}

// Adds those of a host's files.
fn add_host(needed: &mut BTreeSet<u32>, host: &Host) -> Result<(), OutOfMemory>
    ensures { OnOk result ((n : ℕ) → has_generation needed.new n ≡ (has_generation needed.old n || list_any (has_file_in n)
        (trees_of host.now))) }
{
    add_tree(needed, &host.root)?;
    add_tree(needed, &host.lower)?;
    add_pasts(needed, host.past.as_slice())
}

// Adds those of the files of past trees.
fn add_pasts(needed: &mut BTreeSet<u32>, pasts: &[Past]) -> Result<(), OutOfMemory>
    ensures { OnOk result ((n : ℕ) → has_generation needed.new n ≡ (has_generation needed.old n || list_any (has_file_in n)
        (trees_of_pasts pasts.now))) }
{
    'pasts: for past in pasts {
        add_past(needed, past)?;
    }
    Ok(())
}

// Adds those of the files of a past tree.
fn add_past(needed: &mut BTreeSet<u32>, past: &Past) -> Result<(), OutOfMemory>
    ensures { OnOk result ((n : ℕ) → has_generation needed.new n ≡ (has_generation needed.old n ||
        (has_file_in n past.now.root || has_file_in n past.now.lower))) }
{
    add_tree(needed, &past.root)?;
    add_tree(needed, &past.lower)
}

// Adds those of the files of a tree.
fn add_tree(needed: &mut BTreeSet<u32>, tree: &Tree<Held>) -> Result<(), OutOfMemory>
    ensures { OnOk result ((n : ℕ) → has_generation needed.new n ≡ (has_generation needed.old n || has_file_in n tree.now)) }
{
    add_entries(needed, tree.pairs())
}

// Adds those of the files of entries.
fn add_entries(
    needed: &mut BTreeSet<u32>,
    entries: &[(Path, Entry<Held>)],
) -> Result<(), OutOfMemory>
    ensures { OnOk result ((n : ℕ) → has_generation needed.new n ≡ (has_generation needed.old n || has_file_in n entries.now)) }
{
    'entries: for entry in entries {
        add_entry(needed, &entry.1)?;
    }
    Ok(())
}

// Adds that of an entry's file, if it is one that is kept.
fn add_entry(needed: &mut BTreeSet<u32>, entry: &Entry<Held>) -> Result<(), OutOfMemory>
    ensures { OnOk result ((n : ℕ) → has_generation needed.new n ≡ (has_generation needed.old n || is_file_in n entry.now)) }
{
    if let Entry::File(_, held) = entry {
        if let Body::Kept(home) = held.body() {
            needed.insert(home.generation)?;
        }
    }
    Ok(())
}
