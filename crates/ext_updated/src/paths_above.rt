// The directories in which pieces stand.
ghost use Rattle.std.specs.Prelude.{◌≡◌, ◌++◌, ◌&&◌, ◌∷◌, [], ℕ, List, not, take, if◌then◌else◌, is_some, IfOk, IsTrue, OnOk};
ghost use Rattle.std.specs.FinMap.{is_sorted};
ghost use Rattle.std.specs.List.{filter};
ghost use Rattle.ext_text.specs.Path.{path_cmp};
ghost use Rattle.ext_tree.specs.Graft.{made};
ghost use Rattle.ext_tree.specs.Tree.{lookup};
ghost use Rattle.ext_updated.specs.Pieces.{is_above};
ghost use Rattle.ext_updated.specs.Putting.{is_beside, lacking_last, lacking_once, lacks, made_at, prefixes};

use crate::piece::Piece;
use ext_attributes::Attributes;
use ext_text::{Mode, OutOfMemory, Path, PathRef, SortedPaths};
use ext_tree::{Entry, Tree};
use std::alloc::Global;

// The mode of made directories.
const MADE: u16 = 0o755;

// Directories of mode 755 at those paths above pieces, the root aside, at which nothing stands in the tree.
pub(crate) fn missing_above<C: Drop>(
    alloc: Global,
    tree: &Tree<C>,
    pieces: &[Piece<C>],
) -> Result<Vec<(Path, Entry<C>)>, OutOfMemory>
    ensures found { IfOk result (λ pairs. (q : List (List ℕ)) → lookup pairs.items q
        ≡ (if is_above pieces.now q && not (is_some (lookup tree.now q)) then Some made else None)) }
    ensures order { IfOk result (λ pairs. IsTrue (is_sorted path_cmp pairs.items)) }
{
    let mut paths = Vec::new(alloc);
    append_above(&mut paths, tree, pieces)?;
    let sorted = SortedPaths::of(paths);
    let pairs = made_at(alloc, sorted.as_slice())?;
    Ok(pairs)
}

// Appends the proper prefixes of the paths of pieces, the root aside, at which nothing stands: of pieces in one directory that follow
// one another, those of the last.
fn append_above<C>(
    paths: &mut Vec<Path>,
    tree: &Tree<C>,
    pieces: &[Piece<C>],
) -> Result<(), OutOfMemory>
    ensures { OnOk result (paths.new.items ≡ paths.old.items ++ lacking_once tree.now pieces.now) }
{
    let mut rest = pieces;
    'pieces: loop {
        match rest {
            [] => return Ok(()),
            [piece, more @ ..] => {
                append_last(paths, tree, piece, more)?;
                rest = more;
            }
        }
    }
}

// Appends those of a piece, unless the next one stands in its directory.
fn append_last<C>(
    paths: &mut Vec<Path>,
    tree: &Tree<C>,
    piece: &Piece<C>,
    more: &[Piece<C>],
) -> Result<(), OutOfMemory>
    ensures { OnOk result (paths.new.items ≡ paths.old.items ++ lacking_last tree.now piece.now more.now) }
{
    if is_beside(piece, more) {
        return Ok(());
    }
    append_prefixes(paths, tree, &piece.path)
}

// Whether the first of the pieces stands in the directory of this one.
fn is_beside<C>(piece: &Piece<C>, pieces: &[Piece<C>]) -> bool
    ensures { result ≡ is_beside piece.now pieces.now }
{
    match pieces.first() {
        None => false,
        Some(next) => piece.path.parent().cmp(&next.path.parent()).is_eq(),
    }
}

// Appends the proper prefixes of the path, the root aside, at which nothing stands.
fn append_prefixes<C>(paths: &mut Vec<Path>, tree: &Tree<C>, path: &Path) -> Result<(), OutOfMemory>
    ensures { OnOk result (paths.new.items ≡ paths.old.items ++ filter (lacks tree.now) (prefixes path.now)) }
{
    'names: for names in 1..path.depth() {
        append_prefix(paths, tree, path, names)?;
    }
    Ok(())
}

// Appends the path of so many first names, where nothing stands there.
fn append_prefix<C>(
    paths: &mut Vec<Path>,
    tree: &Tree<C>,
    path: &Path,
    names: usize,
) -> Result<(), OutOfMemory>
    ensures { OnOk result (paths.new.items ≡ paths.old.items ++ filter (lacks tree.now) (take names path.now ∷ [])) }
{
    if !lacks(tree, &path.names().prefix(names)) {
        return Ok(());
    }
    paths.push(path.prefix(names)?)?;
    Ok(())
}

// Whether nothing stands at the path of these names.
fn lacks<C>(tree: &Tree<C>, names: &PathRef) -> bool
    ensures { result ≡ lacks tree.now names.now }
{
    tree.entry_at(names).is_none()
}

// Directories of mode 755 at the paths.
fn made_at<C: Drop>(alloc: Global, paths: &[Path]) -> Result<Vec<(Path, Entry<C>)>, OutOfMemory>
    ensures { IfOk result (λ pairs. pairs.items ≡ made_at paths.now) }
{
    let mut pairs = Vec::with_capacity(alloc, paths.len())?;
    for path in paths {
        pairs.push(directory_at(path)?)?;
    }
    Ok(pairs)
}

// A directory of mode 755 at the path.
fn directory_at<C>(path: &Path) -> Result<(Path, Entry<C>), OutOfMemory>
    ensures { IfOk result (λ pair. pair ≡ (path.now, made)) }
{
    match Mode::new(MADE) {
        Some(mode) => Ok((path.copy()?, Entry::Dir(Attributes::of_mode(mode)))),
        None => unreachable!(),
    }
}
