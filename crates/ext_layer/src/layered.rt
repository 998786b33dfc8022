// The layers over the host as one tree, borrowed or copied.
ghost use Rattle.std.specs.Prelude.{◌≡◌, ◌++◌, ◌∷◌, [], ◌↔◌, ◌<◌, length, IfOk, IsTrue, OnOk};
ghost use Rattle.std.specs.FinMap.{is_sorted};
ghost use Rattle.ext_text.specs.Path.{path_cmp};
ghost use Rattle.ext_tree.specs.Tree.{all_shown, as_shown, most_entries};
ghost use Rattle.ext_layer.specs.Layered.{GivesLayered};
ghost use Rattle.ext_layer.specs.Overlay.{marked, over, visible_in};
ghost use Rattle.ext_layer.specs.Joining.{Shows};
ghost use Rattle.ext_layer.specs.Item.{all_seen, entries_seen};

use crate::Layers;
use crate::errors::LayerErr;
use crate::item::Item;
use crate::joining::joined;
use crate::overlay::{count_hidden, insertion_point, laid_over};
use ext_text::{OutOfMemory, Path};
use ext_tree::{Entry, Held1, MOST_ENTRIES, Tree};
use std::alloc::Global;

/// The entries that are visible of the layers over the host, in path order. Nothing is copied: the entries stay those of
/// the layers, and an opaque directory among them is to be shown as a directory.
///
/// # Errors
/// `Limit` exactly where the layered tree has more than 262,144 entries. `OutOfMemory` may come at any time.
pub fn visible_entries<'a, C>(
    alloc: Global,
    layers: &'a Layers<C>,
    host: &'a Tree<C>,
) -> Result<Vec<&'a (Path, Entry<C>)>, LayerErr>
    ensures { GivesLayered (layers.now ++ host.now ∷ []) (entries_seen result) }
{
    let pairs = visible_of(alloc, layers.as_slice(), host)?;
    if are_too_many(pairs.as_slice()) {
        return Err(LayerErr::Limit);
    }
    Ok(pairs)
}

/// The layered tree, its entries copied, opaque directories as directories. The number of entries is tested before anything
/// is copied.
///
/// # Errors
/// As for [`visible_entries`].
pub fn layer<C: Held1 + Drop>(
    alloc: Global,
    layers: &Layers<C>,
    host: &Tree<C>,
) -> Result<Tree<C>, LayerErr>
    ensures { GivesLayered (layers.now ++ host.now ∷ []) result }
{
    let pairs = visible_entries(alloc, layers, host)?;
    let copies = copies_of(alloc, pairs.as_slice())?;
    Ok(Tree::from_pairs(copies))
}

// The entries that are visible of the layers over the host.
fn visible_of<'a, C>(
    alloc: Global,
    layers: &'a [Tree<C>],
    host: &'a Tree<C>,
) -> Result<Vec<&'a (Path, Entry<C>)>, OutOfMemory>
    ensures { IfOk result (λ pairs. Shows (layers.now ++ host.now ∷ []) (all_shown pairs.items)) }
{
    let upper = joined(alloc, layers)?;
    visible_merged(alloc, upper.as_slice(), host.pairs())
}

fn are_too_many<C>(pairs: &[&(Path, Entry<C>)]) -> bool
    ensures { IsTrue result ↔ (most_entries < length pairs.now) }
{
    pairs.len() > MOST_ENTRIES
}

// The entries that are visible of the upper list laid over the lowest layer: the last join makes no list of its own, and neither of
// that layer. Whiteouts have hidden what they hide, and go.
fn visible_merged<'a, C>(
    alloc: Global,
    upper: &[Item<'a, C>],
    lower: &'a [(Path, Entry<C>)],
) -> Result<Vec<&'a (Path, Entry<C>)>, OutOfMemory>
    requires upper { IsTrue (is_sorted path_cmp (all_seen upper.now)) }
    requires lower { IsTrue (is_sorted path_cmp (marked lower.now)) }
    ensures { IfOk result (λ pairs. all_shown pairs.items ≡ visible_in (over (all_seen upper.now) (marked lower.now))) }
{
    let mut pairs = Vec::with_capacity(alloc, upper.len().saturating_add(lower.len()))?;
    let mut from = 0;
    'uppers: for item in upper {
        let (_passed, rest) = lower.split_at(from);
        let index = insertion_point(rest, item);
        let (before, after) = rest.split_at(index);
        append_visible(&mut pairs, before)?;
        let laid = laid_over(item, after);
        push_visible(&mut pairs, laid.pair)?;
        from += index + count_hidden(after, item);
    }
    let (_passed, rest) = lower.split_at(from);
    append_visible(&mut pairs, rest)?;
    Ok(pairs)
}

// Adds entries at the end, but for whiteouts.
fn append_visible<'a, C>(
    pairs: &mut Vec<&'a (Path, Entry<C>)>,
    more: &'a [(Path, Entry<C>)],
) -> Result<(), OutOfMemory>
    ensures { OnOk result (all_shown pairs.new.items ≡ all_shown pairs.old.items ++ visible_in (marked more.now)) }
{
    for pair in more {
        push_visible(pairs, pair)?;
    }
    Ok(())
}

// Adds an entry at the end, where it is no whiteout.
fn push_visible<'a, C>(
    pairs: &mut Vec<&'a (Path, Entry<C>)>,
    pair: &'a (Path, Entry<C>),
) -> Result<(), OutOfMemory>
    ensures { OnOk result (all_shown pairs.new.items ≡ all_shown pairs.old.items ++ visible_in (marked (pair.now ∷ []))) }
{
    if !pair.1.is_hide() {
        pairs.push(pair)?;
    }
    Ok(())
}

// Copies of entries as they show, with equal paths.
fn copies_of<C: Held1 + Drop>(
    alloc: Global,
    pairs: &[&(Path, Entry<C>)],
) -> Result<Vec<(Path, Entry<C>)>, OutOfMemory>
    ensures { IfOk result (λ copies. copies.items ≡ all_shown pairs.now) }
{
    let mut copies = Vec::with_capacity(alloc, pairs.len())?;
    for pair in pairs {
        copies.push(copy_of(alloc, pair)?)?;
    }
    Ok(copies)
}

// A copy of an entry as it shows, with an equal path.
fn copy_of<C: Held1 + Drop>(
    alloc: Global,
    pair: &(Path, Entry<C>),
) -> Result<(Path, Entry<C>), OutOfMemory>
    ensures { IfOk result (λ copy. copy ≡ (pair.now.0, as_shown pair.now.1)) }
{
    let path = pair.0.copy()?;
    let entry = shown_copy(alloc, &pair.1)?;
    Ok((path, entry))
}

// A copy of an entry as it shows.
fn shown_copy<C: Held1 + Drop>(alloc: Global, entry: &Entry<C>) -> Result<Entry<C>, OutOfMemory>
    ensures { IfOk result (λ copy. copy ≡ as_shown entry.now) }
{
    match entry {
        Entry::Opaque(attributes) => Ok(Entry::Dir(*attributes)),
        Entry::Dir(_) | Entry::File(_, _) | Entry::Link(_, _) | Entry::Hide => entry.copy(alloc),
    }
}
