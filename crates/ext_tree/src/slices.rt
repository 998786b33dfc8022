// Entries that stand one after another in path order, found by binary search and borrowed.
ghost use Rattle.std.specs.Prelude.{◌≡◌, ◌≤◌, not, [], ◌∷◌, ◌++◌, drop, length, IsTrue};
ghost use Rattle.std.specs.Ordering.{is_eq};
ghost use Rattle.std.specs.FinMap.{is_sorted};
ghost use Rattle.std.specs.FinMap.Entries.{where_key};
ghost use Rattle.ext_text.specs.Path.{is_proper_prefix, path_cmp};
ghost use Rattle.ext_tree.specs.Slices.{IsChild, is_after, is_before_name, is_named};
ghost use Rattle.ext_tree.specs.Tree.{IsTree, is_directory_or_root};

use crate::entry::Entry;
use crate::insertion_point::is_directory_or_root;
use crate::tree::Tree;
use ext_text::{Path, PathRef};
use std::cmp::Ordering;

impl<C> Tree<C> {
    /// The entries below the path of these names, in path order. Below the root that is all of them.
    pub fn below(&self, directory: &PathRef) -> &[(Path, Entry<C>)]
        ensures same { result.now ≡ where_key path_cmp (is_proper_prefix directory.now) self.now }
        ensures sorted { IsTrue (is_sorted path_cmp result.now) }
    {
        named(self.pairs(), directory, &[])
    }

    /// The entries at and below those names of the directory that begin with these bytes, in path order.
    pub fn named(&self, directory: &PathRef, start: &[u8]) -> &[(Path, Entry<C>)]
        ensures same { result.now ≡ where_key path_cmp (is_named directory.now start.now) self.now }
        ensures sorted { IsTrue (is_sorted path_cmp result.now) }
    {
        named(self.pairs(), directory, start)
    }

    /// The entry of this name directly in the directory, with its own path; `None` exactly where there is none. The name
    /// may be any bytes.
    pub fn child(&self, directory: &PathRef, name: &[u8]) -> Option<&(Path, Entry<C>)>
        ensures found { IsChild self.now (directory.now ++ name.now ∷ []) result }
        ensures tree { IsTree self.now }
    {
        match from_name(self.pairs(), directory, name).first() {
            Some(entry) if is_child(directory, name, entry) => Some(entry),
            _ => None,
        }
    }

    /// Whether these are no names, and so the root's, or the names of a directory.
    pub fn is_directory_or_root(&self, names: &PathRef) -> bool
        ensures { result ≡ is_directory_or_root self.now names.now }
    {
        is_directory_or_root(self.pairs(), names)
    }
}

/// Of entries in path order those after the path of these names and after all that is below it. Where the path is that
/// of an entry directly in a directory, and the entries are some of that directory, the first one is the next such entry.
pub fn after<'a, C>(entries: &'a [(Path, Entry<C>)], names: &PathRef) -> &'a [(Path, Entry<C>)]
    requires { IsTrue (is_sorted path_cmp entries.now) }
    ensures same { result.now ≡ where_key path_cmp (is_after names.now) entries.now }
    ensures sorted { IsTrue (is_sorted path_cmp result.now) }
{
    rest_after(entries, names)
}

// The entries after the path and after all that is below it.
fn rest_after<'a, C>(entries: &'a [(Path, Entry<C>)], names: &PathRef) -> &'a [(Path, Entry<C>)]
    requires { IsTrue (is_sorted path_cmp entries.now) }
    ensures { result.now ≡ where_key path_cmp (is_after names.now) entries.now }
{
    let (_passed, after) = entries.split_at(count_through(entries, names));
    after
}

// How many entries stand before what comes after the path and all that is below it.
pub(crate) fn count_through<C>(entries: &[(Path, Entry<C>)], names: &PathRef) -> usize
    requires { IsTrue (is_sorted path_cmp entries.now) }
    ensures within { result ≤ length entries.now }
    ensures after { drop result entries.now ≡ where_key path_cmp (is_after names.now) entries.now }
{
    entries.partition_point(|entry| !is_after(names, entry))
}

/// How a path's names stand to those of a directory and one more name, which are not joined for it. The name may be any
/// bytes.
pub fn cmp_child(names: &PathRef, directory: &PathRef, name: &[u8]) -> Ordering
    ensures { result ≡ path_cmp names.now (directory.now ++ name.now ∷ []) }
{
    match names.after(directory) {
        None => names.cmp(directory),
        Some(rest) => cmp_name(&rest, name),
    }
}

// How names stand to a single one.
fn cmp_name(names: &PathRef, name: &[u8]) -> Ordering
    ensures { result ≡ path_cmp names.now (name.now ∷ []) }
{
    match names.split_first() {
        None => Ordering::Less,
        Some((first, below)) => match first.cmp(name) {
            Ordering::Equal => cmp_root(&below),
            other => other,
        },
    }
}

// How names stand to the root, which has none.
fn cmp_root(names: &PathRef) -> Ordering
    ensures { result ≡ path_cmp names.now [] }
{
    if names.is_root() {
        Ordering::Equal
    } else {
        Ordering::Greater
    }
}

// Of entries in path order those at and below the names of the directory that begin with these bytes.
fn named<'a, C>(
    entries: &'a [(Path, Entry<C>)],
    directory: &PathRef,
    start: &[u8],
) -> &'a [(Path, Entry<C>)]
    requires { IsTrue (is_sorted path_cmp entries.now) }
    ensures { result.now ≡ where_key path_cmp (is_named directory.now start.now) entries.now }
{
    let rest = from_name(entries, directory, start);
    let count = rest.partition_point(|entry| is_named(directory, start, entry));
    let (named, _rest) = rest.split_at(count);
    named
}

// Of entries in path order those that do not come before the name of the directory.
fn from_name<'a, C>(
    entries: &'a [(Path, Entry<C>)],
    directory: &PathRef,
    name: &[u8],
) -> &'a [(Path, Entry<C>)]
    requires { IsTrue (is_sorted path_cmp entries.now) }
    ensures { result.now ≡ where_key path_cmp (λ path. not (is_before_name directory.now name.now path)) entries.now }
{
    let passed = entries.partition_point(|entry| is_before_name(directory, name, entry));
    let (_passed, rest) = entries.split_at(passed);
    rest
}

// Whether the entry is the one of this name directly in the directory.
fn is_child<C>(directory: &PathRef, name: &[u8], entry: &(Path, Entry<C>)) -> bool
    ensures { result ≡ is_eq (path_cmp entry.now.0 (directory.now ++ name.now ∷ [])) }
{
    cmp_child(&entry.0.names(), directory, name).is_eq()
}

// Whether the entry comes before the name of the directory.
fn is_before_name<C>(directory: &PathRef, name: &[u8], entry: &(Path, Entry<C>)) -> bool
    ensures { result ≡ is_before_name directory.now name.now entry.now.0 }
{
    cmp_child(&entry.0.names(), directory, name).is_lt()
}

// Whether the entry is at or below a name of the directory that begins with these bytes.
fn is_named<C>(directory: &PathRef, start: &[u8], entry: &(Path, Entry<C>)) -> bool
    ensures { result ≡ is_named directory.now start.now entry.now.0 }
{
    begins_named(directory, start, &entry.0.names())
}

// Whether the names are at or below a name of the directory that begins with these bytes.
fn begins_named(directory: &PathRef, start: &[u8], names: &PathRef) -> bool
    ensures { result ≡ is_named directory.now start.now names.now }
{
    match names.after(directory) {
        None => false,
        Some(rest) => first_begins(&rest, start),
    }
}

// Whether there is a first name, and it begins with these bytes.
fn first_begins(names: &PathRef, start: &[u8]) -> bool
    ensures { result ≡ is_named [] start.now names.now }
{
    match names.split_first() {
        None => false,
        Some((first, _below)) => first.starts_with(start),
    }
}

// Whether the entry comes after the path and all that is below it.
fn is_after<C>(names: &PathRef, entry: &(Path, Entry<C>)) -> bool
    ensures { result ≡ is_after names.now entry.now.0 }
{
    names.cmp(&entry.0.names()).is_lt() && !entry.0.names().starts_with(names)
}
