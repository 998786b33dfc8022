// Searches for an entry of a base by the directory that it is directly in and by its name, which are not joined for it.
ghost use Rattle.std.specs.Prelude.{◌≡◌, ◌≤◌, [], ◌∷◌, ◌++◌, IsTrue, MatchOption};
ghost use Rattle.std.specs.FinMap.{is_sorted};
ghost use Rattle.ext_text.specs.Path.{path_cmp};
ghost use Rattle.ext_tree.specs.InsertionPoint.{insertion_point};
ghost use Rattle.ext_tree.specs.Tree.{IsTree, lookup};
ghost use Rattle.ext_explain.specs.Search.{IsSpot, StandsFrom, StandsWithin};

use ext_host::Held;
use ext_text::{Path, PathRef};
use ext_tree::{Entry, Tree, cmp_child};
use std::cmp::Ordering;

type Pair = (Path, Entry<Held>);

// An entry with its path, and the index from which on all that is directly in it stands.
#[derive(Clone, Copy)]
pub(crate) struct Spot<'a> {
    pub(crate) pair: &'a Pair,
    pub(crate) inside: usize,
}

// The entry at the path of these names, by a search by halves; `None` exactly where there is none.
pub(crate) fn spot_at<'a>(base: &'a Tree<Held>, names: &PathRef) -> Option<Spot<'a>>
    ensures { MatchOption result (lookup base.now names.now ≡ None) (IsSpot base.now names.now) }
{
    let entries = base.pairs();
    match names.split_last() {
        None => None,
        Some((directory, name)) => spot_within(entries, 0, entries.len(), &directory, name),
    }
}

// The entry of this name directly in the directory; `None` exactly where there is none. What is in the directory stands from
// this index on, most times soon after it, so the search begins there.
pub(crate) fn spot_near<'a>(
    base: &'a Tree<Held>,
    from: usize,
    directory: &PathRef,
    name: &[u8],
) -> Option<Spot<'a>>
    requires { StandsFrom base.now directory.now from }
    ensures found { MatchOption result (lookup base.now (directory.now ++ name.now ∷ []) ≡ None)
        (IsSpot base.now (directory.now ++ name.now ∷ [])) }
    ensures tree { IsTree base.now }
{
    spot_from(base.pairs(), from, directory, name)
}

// The entry of this name directly in the directory, where none before this index is the one. The steps double, until one is
// past it.
fn spot_from<'a>(
    entries: &'a [Pair],
    from: usize,
    directory: &PathRef,
    name: &[u8],
) -> Option<Spot<'a>>
    requires sorted { IsTrue (is_sorted path_cmp entries.now) }
    requires from { from ≤ insertion_point path_cmp (directory.now ++ name.now ∷ []) entries.now }
    ensures { MatchOption result (lookup entries.now (directory.now ++ name.now ∷ []) ≡ None)
        (IsSpot entries.now (directory.now ++ name.now ∷ [])) }
{
    // `len` says that there are not too many to double an index.
    let count = entries.len();
    let mut passed = from;
    'doubling: loop {
        let index = passed + (passed - from);
        match entries.get(index) {
            None => return spot_within(entries, passed, count, directory, name),
            Some(pair) => match cmp_child(&pair.0.names(), directory, name) {
                Ordering::Less => passed = index + 1,
                Ordering::Equal => return Some(Spot {
                    pair,
                    inside: index + 1,
                }),
                Ordering::Greater => {
                    return spot_within(entries, passed, index, directory, name);
                }
            },
        }
    }
}

// The entry of this name directly in the directory, which stands between these indexes if it is there, by a search by halves.
fn spot_within<'a>(
    entries: &'a [Pair],
    from: usize,
    to: usize,
    directory: &PathRef,
    name: &[u8],
) -> Option<Spot<'a>>
    requires sorted { IsTrue (is_sorted path_cmp entries.now) }
    requires within { StandsWithin entries.now (directory.now ++ name.now ∷ []) from to }
    ensures { MatchOption result (lookup entries.now (directory.now ++ name.now ∷ []) ≡ None)
        (IsSpot entries.now (directory.now ++ name.now ∷ [])) }
{
    let mut low = from;
    let mut high = to;
    'halves: while low < high {
        let index = low + (high - low) / 2;
        let pair = &entries[index];
        match cmp_child(&pair.0.names(), directory, name) {
            Ordering::Less => low = index + 1,
            Ordering::Equal => return Some(Spot {
                pair,
                inside: index + 1,
            }),
            Ordering::Greater => high = index,
        }
    }
    None
}
