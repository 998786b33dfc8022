// Which items of an update are in the way.
ghost use Rattle.std.specs.Prelude.{◌≡◌, ◌++◌, not, is_some, IfOk, OnOk};
ghost use Rattle.std.specs.List.{filter};
ghost use Rattle.std.specs.Option.{option_copied, option_to_list};
ghost use Rattle.ext_text.specs.SortedPaths.{meets};
ghost use Rattle.ext_tree.specs.Tree.{lookup};
ghost use Rattle.ext_updated.specs.Clash.{AnswersClash, is_link, is_non_link_at};
ghost use Rattle.ext_updated.specs.Steps.{IsLeastPath, IsLeastMet, begins_below, first_met};

use crate::gathering::both;
use crate::items::Items;
use ext_text::{OutOfMemory, Path, SortedPaths};
use ext_tree::{Entry, Tree};
use std::alloc::Global;

/// The least path, in path order, of an item that is in the way; `None` exactly where none is. Two paths are related where they
/// are equal or one lies below the other. In the way is
///
/// - a written path to which another written one is related, so also where two items have one path,
/// - a written path that is related to one that is removed or stays,
/// - a removed path that is related to one that is written or stays,
/// - the path of a resource, where something stands there in the tree,
/// - the path of a link, where something other than a link does.
///
/// Removed paths are not compared with each other, and neither are those that stay. The work is that of sorting the paths and of
/// a search for each prefix of a path. That is this project's own choice.
///
/// # Errors
/// `OutOfMemory` alone.
pub fn clash<C>(alloc: Global, root: &Tree<C>, items: &Items) -> Result<Option<Path>, OutOfMemory>
    ensures { IfOk result (AnswersClash root.now items.now) }
{
    let written = both(alloc, items.resources.as_slice(), items.links.as_slice())?;
    let mut found = Vec::new(alloc);
    append_meeting_items(alloc, &mut found, written.as_slice(), items)?;
    append_standing(&mut found, root, items.resources.as_slice())?;
    append_non_links(&mut found, root, items.links.as_slice())?;
    append_some(&mut found, least_met(written)?)?;
    least(found)
}

// Appends the written paths that are related to one that is removed or stays, and the removed ones that are related to one that is
// written or stays.
fn append_meeting_items(
    alloc: Global,
    found: &mut Vec<Path>,
    written: &[Path],
    items: &Items,
) -> Result<(), OutOfMemory>
    ensures { OnOk result (found.new.items ≡ (found.old.items ++ filter (meets (items.now.removed ++ items.now.staying)) written.now)
        ++ filter (meets (written.now ++ items.now.staying)) items.now.removed) }
{
    let removed = items.removed.as_slice();
    let staying = items.staying.as_slice();
    append_meeting(alloc, found, written, removed, staying)?;
    append_meeting(alloc, found, removed, written, staying)
}

// Appends those of the paths that are related to one of the first or the second ones.
fn append_meeting(
    alloc: Global,
    found: &mut Vec<Path>,
    paths: &[Path],
    first: &[Path],
    second: &[Path],
) -> Result<(), OutOfMemory>
    ensures { OnOk result (found.new.items ≡ found.old.items ++ filter (meets (first.now ++ second.now)) paths.now) }
{
    let others = SortedPaths::of(both(alloc, first, second)?);
    append_met(found, paths, &others)
}

// Appends those of the paths that are related to one of the others.
fn append_met(
    found: &mut Vec<Path>,
    paths: &[Path],
    others: &SortedPaths,
) -> Result<(), OutOfMemory>
    ensures { OnOk result (found.new.items ≡ found.old.items ++ filter (meets others.now) paths.now) }
{
    'paths: for path in paths {
        if others.meets(&path.names()) {
            found.push(path.copy()?)?;
        }
    }
    Ok(())
}

// Appends those of the paths at which something stands.
fn append_standing<C>(
    found: &mut Vec<Path>,
    root: &Tree<C>,
    paths: &[Path],
) -> Result<(), OutOfMemory>
    ensures { OnOk result (found.new.items ≡ found.old.items ++ filter (λ p. is_some (lookup root.now p)) paths.now) }
{
    'paths: for path in paths {
        if root.get(path).is_some() {
            found.push(path.copy()?)?;
        }
    }
    Ok(())
}

// Appends those of the paths at which something other than a link stands.
fn append_non_links<C>(
    found: &mut Vec<Path>,
    root: &Tree<C>,
    paths: &[Path],
) -> Result<(), OutOfMemory>
    ensures { OnOk result (found.new.items ≡ found.old.items ++ filter (λ p. is_non_link_at (lookup root.now p)) paths.now) }
{
    'paths: for path in paths {
        if is_non_link(root.get(path)) {
            found.push(path.copy()?)?;
        }
    }
    Ok(())
}

// Whether something other than a link stands there.
fn is_non_link<C>(entry: Option<&Entry<C>>) -> bool
    ensures { result ≡ is_non_link_at (option_copied entry.entry) }
{
    match entry {
        None => false,
        Some(entry) => !is_link(entry),
    }
}

// Whether the entry is a link.
fn is_link<C>(entry: &Entry<C>) -> bool
    ensures { result ≡ is_link entry.now }
{
    matches!(entry, Entry::Link(_, _))
}

// Appends the path, if there is one.
fn append_some(found: &mut Vec<Path>, path: Option<Path>) -> Result<(), OutOfMemory>
    ensures { OnOk result (found.new.items ≡ found.old.items ++ option_to_list path) }
{
    match path {
        None => Ok(()),
        Some(path) => Ok(found.push(path)?),
    }
}

// The least of the paths to which another one of them is related, if there is one.
fn least_met(paths: Vec<Path>) -> Result<Option<Path>, OutOfMemory>
    ensures { IfOk result (IsLeastMet paths.items) }
{
    let mut sorted = paths;
    sorted.sort_unstable();
    match first_met(sorted.as_slice()) {
        None => Ok(None),
        Some(path) => Ok(Some(path.copy()?)),
    }
}

// The first of the paths that the next one is or lies below.
fn first_met(paths: &[Path]) -> Option<&Path>
    ensures { option_copied result ≡ first_met paths.now }
{
    let mut rest = paths;
    'paths: loop {
        match rest {
            [] => return None,
            [first, more @ ..] => {
                if begins_below(first, more) {
                    return Some(first);
                }
                rest = more;
            }
        }
    }
}

// Whether the first of the paths is the path or lies below it.
fn begins_below(path: &Path, paths: &[Path]) -> bool
    ensures { result ≡ begins_below path.now paths.now }
{
    match paths.first() {
        None => false,
        Some(next) => next.starts_with(path),
    }
}

// The least of the paths, if there is one.
fn least(paths: Vec<Path>) -> Result<Option<Path>, OutOfMemory>
    ensures { IfOk result (IsLeastPath paths.items) }
{
    let sorted = SortedPaths::of(paths);
    match sorted.as_slice().first() {
        None => Ok(None),
        Some(path) => Ok(Some(path.copy()?)),
    }
}
