ghost use Rattle.std.specs.Prelude.{◌≡◌, IfOk, length};
ghost use Rattle.std.specs.List.Sorted.{IsSortedByKey};
ghost use Rattle.ext_text.specs.Path.{path_cmp};
ghost use Rattle.ext_tree.specs.Grafting.{AnswersLimit};
ghost use Rattle.ext_tree.specs.Tree.{IsTree};
ghost use Rattle.ext_updated.specs.Pieces.{MayBePut, paths_of};
ghost use Rattle.ext_updated.specs.Putting.{IsCutFor};
ghost use Rattle.ext_updated.specs.Updated.{AnswersUpdated};

use crate::copying::copy_without;
use crate::gathering::both;
use crate::paths_above::missing_above;
use crate::piece::Piece;
use crate::putting::{entries_of, in_order};
use ext_text::{OutOfMemory, Path, SortedPaths};
use ext_tree::{Entry, Held1, MOST_ENTRIES, Tree, TreeErr, joined};
use std::alloc::Global;

/// The tree after an update: without the removed paths and all that is below them, and with the pieces, which come in any order.
/// What stood at and below the path of a piece goes, and missing directories above it are made with mode 755. All else is copied.
///
/// The pieces may be put: each has a part only below a directory, the paths of no two are related, none is the root, and nothing
/// but directories stands above them in what is left. The work is that of sorting the pieces and the paths above them, of two
/// searches among the entries for each path that is cut, and of one pass over all entries. That is this project's own choice.
///
/// # Errors
/// The first of these:
///
/// - `Path` exactly where a path of some piece's part grows past its limits.
/// - `Limit` exactly where there would be more than 262,144 entries.
///
/// `OutOfMemory` may come in place of them, and nothing else comes.
pub fn updated<C: Held1 + Drop>(
    alloc: Global,
    root: &Tree<C>,
    removed: &SortedPaths,
    pieces: Vec<Piece<C>>,
) -> Result<Tree<C>, TreeErr>
    requires { MayBePut root.now removed.now pieces.items }
    ensures { AnswersUpdated root.now removed.now pieces.items result }
{
    let sorted = in_order(pieces)?;
    put(alloc, root, removed, sorted)
}

// The tree after an update, by pieces in the order of their paths.
fn put<C: Held1 + Drop>(
    alloc: Global,
    root: &Tree<C>,
    removed: &SortedPaths,
    pieces: Vec<Piece<C>>,
) -> Result<Tree<C>, TreeErr>
    requires may { MayBePut root.now removed.now pieces.items }
    requires sorted { IsSortedByKey (λ piece. piece.path) path_cmp pieces.items }
    ensures { AnswersUpdated root.now removed.now pieces.items result }
{
    let left = cut_for(alloc, root, removed, pieces.as_slice())?;
    let directories = missing_above(alloc, &left, pieces.as_slice())?;
    let new = entries_of(alloc, pieces)?;
    let old = joined(alloc, left.into_pairs(), directories)?;
    let pairs = joined(alloc, old, new)?;
    within(pairs)
}

// A copy of the tree without the removed paths, those of the pieces, and all that is below them.
fn cut_for<C: Held1 + Drop>(
    alloc: Global,
    root: &Tree<C>,
    removed: &SortedPaths,
    pieces: &[Piece<C>],
) -> Result<Tree<C>, OutOfMemory>
    ensures { IfOk result (IsCutFor root.now removed.now pieces.now) }
{
    let paths = paths_of(alloc, pieces)?;
    let cut = SortedPaths::of(both(alloc, removed.as_slice(), paths.as_slice())?);
    copy_without(alloc, root, &cut)
}

// The paths of pieces.
fn paths_of<C>(alloc: Global, pieces: &[Piece<C>]) -> Result<Vec<Path>, OutOfMemory>
    ensures { IfOk result (λ paths. paths.items ≡ paths_of pieces.now) }
{
    let mut paths = Vec::new(alloc);
    for piece in pieces {
        paths.push(piece.path.copy()?)?;
    }
    Ok(paths)
}

// The tree of these entries, where they are not too many.
fn within<C: Drop>(pairs: Vec<(Path, Entry<C>)>) -> Result<Tree<C>, TreeErr>
    requires { IsTree pairs.items }
    ensures same { IfOk result (λ tree. tree ≡ pairs.items) }
    ensures limit { AnswersLimit (length pairs.items) result }
{
    if pairs.len() > MOST_ENTRIES {
        return Err(TreeErr::Limit);
    }
    Ok(Tree::from_pairs(pairs))
}
