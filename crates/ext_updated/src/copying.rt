// A copy of what is left of a tree without many paths.
ghost use Rattle.std.specs.Prelude.{◌≡◌, ◌++◌, IfOk, IsTrue, OnOk};
ghost use Rattle.std.specs.FinMap.{is_sorted};
ghost use Rattle.std.specs.FinMap.Entries.{where_key};
ghost use Rattle.std.specs.List.Sorted.{IsStrictlySortedBy};
ghost use Rattle.std.specs.Ordering.{is_lt};
ghost use Rattle.ext_text.specs.Path.{path_cmp};
ghost use Rattle.ext_tree.specs.Cut.{cut_all};
ghost use Rattle.ext_updated.specs.Putting.{is_earlier};

use ext_text::{OutOfMemory, Path, PathRef, SortedPaths};
use ext_tree::{Entry, Held1, Tree, after, append_pairs};
use std::alloc::Global;

/// A copy of the tree without these paths and all that is below them: two searches among the entries for each path, and one pass
/// over what is left.
///
/// # Errors
/// `OutOfMemory`.
pub fn copy_without<C: Held1 + Drop>(
    alloc: Global,
    root: &Tree<C>,
    paths: &SortedPaths,
) -> Result<Tree<C>, OutOfMemory>
    ensures { IfOk result (λ left. left ≡ cut_all paths.now root.now) }
{
    let mut left = Vec::with_capacity(alloc, root.pairs().len())?;
    append_left(alloc, &mut left, root.pairs(), paths.as_slice())?;
    Ok(Tree::from_pairs(left))
}

// Appends copies of the entries that are neither at one of the paths nor below one.
fn append_left<C: Held1 + Drop>(
    alloc: Global,
    left: &mut Vec<(Path, Entry<C>)>,
    pairs: &[(Path, Entry<C>)],
    paths: &[Path],
) -> Result<(), OutOfMemory>
    requires sorted { IsTrue (is_sorted path_cmp pairs.now) }
    requires order { IsStrictlySortedBy path_cmp paths.now }
    ensures { OnOk result (left.new.items ≡ left.old.items ++ cut_all paths.now pairs.now) }
{
    let mut rest = pairs;
    let mut more = paths;
    'paths: loop {
        match more {
            [] => return append_pairs(alloc, left, rest),
            [path, others @ ..] => {
                append_pairs(alloc, left, before(rest, &path.names()))?;
                rest = after(rest, &path.names());
                more = others;
            }
        }
    }
}

// Of entries in path order those before the path of the names.
fn before<'a, C>(pairs: &'a [(Path, Entry<C>)], names: &PathRef) -> &'a [(Path, Entry<C>)]
    requires { IsTrue (is_sorted path_cmp pairs.now) }
    ensures { result.now ≡ where_key path_cmp (is_earlier names.now) pairs.now }
{
    let count = pairs.partition_point(|pair| is_earlier(names, pair));
    let (before, _rest) = pairs.split_at(count);
    before
}

// Whether an entry comes before the path of the names.
fn is_earlier<C>(names: &PathRef, pair: &(Path, Entry<C>)) -> bool
    ensures { result ≡ is_earlier names.now pair.now.0 }
{
    pair.0.names().cmp(names).is_lt()
}
