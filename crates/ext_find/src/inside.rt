// What stands below a directory, seen from there.
ghost use Rattle.std.specs.Prelude.{◌≡◌, [], IsTrue};
ghost use Rattle.std.specs.FinMap.{is_sorted};
ghost use Rattle.std.specs.Option.{option_copied};
ghost use Rattle.ext_text.specs.Path.{path_cmp};
ghost use Rattle.ext_tree.specs.InsertionPoint.{is_past, insertion_point};
ghost use Rattle.ext_tree.specs.Part.{part};
ghost use Rattle.ext_tree.specs.Tree.{lookup};
ghost use Rattle.ext_find.specs.Inside.{borrowed, seen, seen_entry};

use ext_text::{Path, PathRef};
use ext_tree::{Entry, Tree};
use std::cmp::Ordering;
use std::marker::Model;

// The part of a tree below a directory, which is not copied: entries, each with as many first names that are the
// directory's. Contracts see it as the part.
#[derive(Drop)]
pub struct Inside<'a, C> {
    entries: &'a [(Path, Entry<C>)],
    depth: usize,
}

impl<'a, C> Model for Inside<'a, C> {
    ghost use Rattle.std.specs.Prelude.{IsTrue};
    ghost use Rattle.std.specs.FinMap.{is_sorted};
    ghost use Rattle.ext_text.specs.Path.{path_cmp};
    ghost use Rattle.ext_tree.specs.Tree.{Entries};
    ghost use Rattle.ext_find.specs.Inside.{seen};

    ghost Value = { Entries C };

    ghost view = { λ i. seen i.depth i.entries.now };

    ghost invariant = { λ i. IsTrue (is_sorted path_cmp (seen i.depth i.entries.now)) };
}

impl<'a, C> Inside<'a, C> {
    // What the tree has below the directory.
    pub(crate) fn of(tree: &'a Tree<C>, directory: &PathRef) -> Inside<'a, C>
        ensures { result ≡ part directory.now tree.now }
    {
        let _entries = tree.pairs();
        Inside::new(tree.below(directory), directory.depth())
    }

    // The entries without so many first names each.
    pub(crate) fn new(entries: &'a [(Path, Entry<C>)], depth: usize) -> Inside<'a, C>
        requires { IsTrue (is_sorted path_cmp (seen depth entries.now)) }
        ensures { result ≡ seen depth entries.now }
    {
        Inside { entries, depth }
    }

    // What stands at these names, one below the other.
    pub(crate) fn get(&self, names: &[&[u8]]) -> Option<&Entry<C>>
        ensures { option_copied result ≡ lookup self.now (borrowed names.now) }
    {
        entry_at(
            self.entries,
            self.depth,
            names,
            insertion_point_of(self.entries, self.depth, names),
        )
    }
}

// How many of the entries stand before the names.
fn insertion_point_of<C>(entries: &[(Path, Entry<C>)], depth: usize, names: &[&[u8]]) -> usize
    requires { IsTrue (is_sorted path_cmp (seen depth entries.now)) }
    ensures { result ≡ insertion_point path_cmp (borrowed names.now) (seen depth entries.now) }
{
    entries.partition_point(|entry| is_past(names, entry, depth))
}

// What stands at the names, whose insertion point is known.
fn entry_at<'a, C>(
    entries: &'a [(Path, Entry<C>)],
    depth: usize,
    names: &[&[u8]],
    index: usize,
) -> Option<&'a Entry<C>>
    requires sorted { IsTrue (is_sorted path_cmp (seen depth entries.now)) }
    requires index { index ≡ insertion_point path_cmp (borrowed names.now) (seen depth entries.now) }
    ensures { option_copied result ≡ lookup (seen depth entries.now) (borrowed names.now) }
{
    match entries.get(index) {
        Some(entry) if cmp_seen(names, entry, depth).is_eq() => Some(&entry.1),
        _ => None,
    }
}

// Whether the names stand past the entry.
fn is_past<C>(names: &[&[u8]], entry: &(Path, Entry<C>), depth: usize) -> bool
    ensures { result ≡ is_past path_cmp (borrowed names.now) (seen_entry depth entry.now) }
{
    cmp_seen(names, entry, depth).is_gt()
}

// How the names stand to the entry.
fn cmp_seen<C>(names: &[&[u8]], entry: &(Path, Entry<C>), depth: usize) -> Ordering
    ensures { result ≡ path_cmp (borrowed names.now) (seen_entry depth entry.now).0 }
{
    cmp_names(names, &entry.0.names().rest(depth))
}

// How names stand to a path's.
fn cmp_names(names: &[&[u8]], path: &PathRef) -> Ordering
    ensures { result ≡ path_cmp (borrowed names.now) path.now }
{
    match path.split_first() {
        None => cmp_root(names),
        Some((own, below)) => match names {
            [] => Ordering::Less,
            [first, more @ ..] => match first.cmp(own) {
                Ordering::Equal => cmp_names(more, &below),
                other => other,
            },
        },
    }
}

// How names stand to the root, which has none.
fn cmp_root(names: &[&[u8]]) -> Ordering
    ensures { result ≡ path_cmp (borrowed names.now) [] }
{
    match names {
        [] => Ordering::Equal,
        [_first, ..] => Ordering::Greater,
    }
}
