// The names of a directory, one after the other, each with what stands at it and below it.
ghost use Rattle.std.specs.Prelude.{◌≡◌, ◌<◌, ◌≤◌, Some, true, false, length, slice_get};
ghost use Rattle.std.specs.List.{AllWithin};
ghost use Rattle.std.specs.List.Sorted.{IsPartitionedBy, IsPartitionPoint};
ghost use Rattle.ext_text.specs.Name.{IsName};
ghost use Rattle.ext_walk.specs.Row.{IsRow, NextName, has_name};

use ext_text::{Path, PathRef};
use ext_tree::{Entry, Tree};

/// A name of a directory with what stands at it and below it, and what is left after these.
#[derive(Drop)]
pub struct Next<'a, C> {
    /// The name.
    pub name: &'a [u8],
    /// What stands at the name in the directory, with its path.
    pub entry: &'a (Path, Entry<C>),
    /// The entries below it, in path order.
    pub inside: &'a [(Path, Entry<C>)],
    /// The entries of the names that follow.
    pub more: &'a [(Path, Entry<C>)],
}

/// The name of the directory at which the first of the entries stands, with what the tree has there; `None` exactly where
/// none is left. The entries are all that the tree has at and below some names of the directory, in path order, as
/// [`Tree::below`] and [`Tree::named`] give them, and then what an earlier name left. So a loop goes through the names of
/// a directory in byte order, and each call costs a search among the entries of one name.
pub fn next_name<'a, C>(
    base: &Tree<C>,
    rest: &'a [(Path, Entry<C>)],
    directory: &PathRef,
) -> Option<Next<'a, C>>
    requires { IsRow base.now directory.now rest.now }
    ensures { NextName base.now directory.now rest.now result }
{
    // `pairs` says of the base that it is a tree.
    let _entries = base.pairs();
    match rest {
        [] => None,
        [entry, others @ ..] => {
            let depth = directory.depth();
            let name = name_at(&entry.0, depth);
            let (inside, more) = others.split_at(count_named(others, depth, name));
            Some(Next {
                name,
                entry,
                inside,
                more,
            })
        }
    }
}

// The name of a path at a depth that it has.
fn name_at(path: &Path, depth: usize) -> &[u8]
    requires { depth < length path.now }
    ensures same { slice_get path.now depth ≡ Some result.now }
    ensures name { IsName result.now }
{
    match path.names().rest(depth).split_first() {
        None => unreachable!(),
        Some((name, _below)) => name,
    }
}

// How many of the first entries have the name. Those are few, most times, so they are searched near the first.
fn count_named<C>(entries: &[(Path, Entry<C>)], depth: usize, name: &[u8]) -> usize
    ensures within { result ≤ length entries.now }
    ensures point { IsPartitionedBy (has_name depth name.now) entries.now
        → IsPartitionPoint (λ e. has_name depth name.now e ≡ true) (λ e. has_name depth name.now e ≡ false) entries.now result }
{
    let (near, _far) = entries.split_at(reach_of(entries, depth, name));
    near.partition_point(|entry| has_name(entry, depth, name))
}

// How many of the first entries to search: no other has the name.
fn reach_of<C>(entries: &[(Path, Entry<C>)], depth: usize, name: &[u8]) -> usize
    ensures within { result ≤ length entries.now }
    ensures past { IsPartitionedBy (has_name depth name.now) entries.now
        → AllWithin (λ e. has_name depth name.now e ≡ false) entries.now result (length entries.now) }
{
    let mut reach = 1;
    'doubling: while reach < entries.len() {
        if !has_name(&entries[reach], depth, name) {
            return reach;
        }
        reach = reach.saturating_mul(2);
    }
    entries.len()
}

// Whether the entry has the name at this depth.
fn has_name<C>(entry: &(Path, Entry<C>), depth: usize, name: &[u8]) -> bool
    ensures { result ≡ has_name depth name.now entry.now }
{
    match entry.0.names().rest(depth).split_first() {
        None => false,
        Some((own, _below)) => own.cmp(name).is_eq(),
    }
}
