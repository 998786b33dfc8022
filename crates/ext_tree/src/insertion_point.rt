// Insertion points of paths among entries in path order, found by binary search, and what stands there.
ghost use Rattle.std.specs.Prelude.{◌≡◌, ◌≤◌, length, IsTrue};
ghost use Rattle.std.specs.Bool.{OnTrue};
ghost use Rattle.std.specs.Option.{option_copied};
ghost use Rattle.std.specs.FinMap.{is_sorted};
ghost use Rattle.ext_text.specs.Path.{path_cmp};
ghost use Rattle.ext_tree.specs.InsertionPoint.{is_past, insertion_point};
ghost use Rattle.ext_tree.specs.Tree.{IsTree, is_directory_at, is_directory_or_root, lookup};

use crate::entry::Entry;
use ext_text::{Path, PathRef};

// How many entries stand before the path. Paths that come in path order take no search.
pub(crate) fn insertion_point_of<C>(entries: &[(Path, Entry<C>)], names: &PathRef) -> usize
    requires { IsTrue (is_sorted path_cmp entries.now) }
    ensures index { result ≡ insertion_point path_cmp names.now entries.now }
    ensures within { result ≤ length entries.now }
{
    if is_past_all(entries, names) {
        return entries.len();
    }
    entries.partition_point(|entry| is_past(names, entry))
}

// What stands at the path, whose insertion point is known.
pub(crate) fn entry_at<'a, C>(
    entries: &'a [(Path, Entry<C>)],
    names: &PathRef,
    index: usize,
) -> Option<&'a Entry<C>>
    requires sorted { IsTrue (is_sorted path_cmp entries.now) }
    requires index { index ≡ insertion_point path_cmp names.now entries.now }
    ensures { option_copied result ≡ lookup entries.now names.now }
{
    match entries.get(index) {
        Some((path, entry)) if names.cmp(&path.names()).is_eq() => Some(entry),
        _ => None,
    }
}

// What stands at the path.
pub(crate) fn entry_of<'a, C>(
    entries: &'a [(Path, Entry<C>)],
    names: &PathRef,
) -> Option<&'a Entry<C>>
    requires { IsTrue (is_sorted path_cmp entries.now) }
    ensures { option_copied result ≡ lookup entries.now names.now }
{
    entry_at(entries, names, insertion_point_of(entries, names))
}

// Whether the path is the root or a directory stands there. The parent of the last entry takes no search.
pub(crate) fn is_directory_or_root<C>(entries: &[(Path, Entry<C>)], names: &PathRef) -> bool
    requires { IsTree entries.now }
    ensures { result ≡ is_directory_or_root entries.now names.now }
{
    names.is_root() || holds_last(entries, names) || is_directory_at(entries, names)
}

// Whether a directory stands at the path.
fn is_directory_at<C>(entries: &[(Path, Entry<C>)], names: &PathRef) -> bool
    requires { IsTrue (is_sorted path_cmp entries.now) }
    ensures { result ≡ is_directory_at (lookup entries.now names.now) }
{
    match entry_of(entries, names) {
        Some(entry) => entry.is_directory(),
        None => false,
    }
}

// Whether the last entry stands directly at the path, which is then a directory or the root.
fn holds_last<C>(entries: &[(Path, Entry<C>)], names: &PathRef) -> bool
    requires { IsTree entries.now }
    ensures { OnTrue result (IsTrue (is_directory_or_root entries.now names.now)) }
{
    match entries.last() {
        Some((path, _)) => names.cmp(&path.parent()).is_eq(),
        None => false,
    }
}

// Whether the path stands past every entry: the last one decides.
fn is_past_all<C>(entries: &[(Path, Entry<C>)], names: &PathRef) -> bool
    requires { IsTrue (is_sorted path_cmp entries.now) }
    ensures { OnTrue result (insertion_point path_cmp names.now entries.now ≡ length entries.now) }
{
    match entries.last() {
        Some(entry) => is_past(names, entry),
        None => true,
    }
}

// Whether the path stands past the entry.
fn is_past<C>(names: &PathRef, entry: &(Path, Entry<C>)) -> bool
    ensures { result ≡ is_past path_cmp names.now entry.now }
{
    names.cmp(&entry.0.names()).is_gt()
}
