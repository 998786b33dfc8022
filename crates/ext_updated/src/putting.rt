// The entries of pieces, in path order.
ghost use Rattle.std.specs.Prelude.{◌≡◌, ◌++◌, ◌∷◌, [], map, IfErr, IfOk, OnOk};
ghost use Rattle.std.specs.List.{AllByRecursion};
ghost use Rattle.std.specs.List.Sorted.{IsPermutation, IsSortedByKey};
ghost use Rattle.ext_text.specs.Path.{IsPath, path_cmp};
ghost use Rattle.ext_tree.specs.Grafting.{IsLongPath, hung};
ghost use Rattle.ext_tree.specs.Tree.{IsTree};
ghost use Rattle.ext_updated.specs.Putting.{AllFitBelow, IsReady, SomePasses, SomePiecePasses, entries_at, entries_of};

use crate::piece::Piece;
use ext_text::{OutOfMemory, Path, PathErr, PathRef};
use ext_tree::{Entry, TreeErr};
use std::alloc::Global;
use std::cmp::Ordering;
use std::collections::VecDeque;

// The pieces in the order of their paths. They come in a few stretches that are in order, which a stable sort merges.
pub(crate) fn in_order<C: Drop>(pieces: Vec<Piece<C>>) -> Result<Vec<Piece<C>>, OutOfMemory>
    ensures same { IfOk result (λ sorted. IsPermutation pieces.items sorted.items) }
    ensures sorted { IfOk result (λ sorted. IsSortedByKey (λ piece. piece.path) path_cmp sorted.items) }
{
    let mut sorted = pieces;
    sorted.sort_by(piece_cmp)?;
    Ok(sorted)
}

// How the paths of two pieces stand to each other.
fn piece_cmp<C>(a: &Piece<C>, b: &Piece<C>) -> Ordering
    ensures { result ≡ path_cmp a.now.path b.now.path }
{
    a.path.cmp(&b.path)
}

// The entries of pieces, each piece's after those of the pieces before it.
pub(crate) fn entries_of<C: Drop>(
    alloc: Global,
    pieces: Vec<Piece<C>>,
) -> Result<Vec<(Path, Entry<C>)>, TreeErr>
    ensures ok { IfOk result (λ pairs. (pairs.items ≡ entries_of pieces.items) × AllByRecursion IsReady pieces.items) }
    ensures err { IfErr result (IsLongPath (SomePiecePasses pieces.items)) }
{
    let mut pairs = Vec::new(alloc);
    append_pieces(alloc, &mut pairs, pieces)?;
    Ok(pairs)
}

// Appends the entries of pieces.
fn append_pieces<C: Drop>(
    alloc: Global,
    pairs: &mut Vec<(Path, Entry<C>)>,
    pieces: Vec<Piece<C>>,
) -> Result<(), TreeErr>
    ensures ok { OnOk result (pairs.new.items ≡ pairs.old.items ++ entries_of pieces.items) }
    ensures ready { OnOk result (AllByRecursion IsReady pieces.items) }
    ensures err { IfErr result (IsLongPath (SomePiecePasses pieces.items)) }
{
    let mut rest = VecDeque::from(pieces);
    'pieces: loop {
        let Some(piece) = rest.pop_front() else {
            return Ok(());
        };
        match append_piece(alloc, pairs, piece) {
            Ok(()) => {}
            Err(refused) => return Err(refused),
        }
    }
}

// Appends the entries of a piece.
fn append_piece<C: Drop>(
    alloc: Global,
    pairs: &mut Vec<(Path, Entry<C>)>,
    piece: Piece<C>,
) -> Result<(), TreeErr>
    ensures ok { OnOk result (pairs.new.items ≡ pairs.old.items ++ entries_at piece) }
    ensures ready { OnOk result (IsReady piece) }
    ensures err { IfErr result (IsLongPath (SomePasses piece.path piece.part)) }
{
    let path = piece.path;
    let names = path.names();
    append_pair(pairs, (path.copy()?, piece.top))?;
    append_hung(alloc, pairs, &names, piece.part.into_pairs())
}

// Appends entries, each below the path.
fn append_hung<C: Drop>(
    alloc: Global,
    pairs: &mut Vec<(Path, Entry<C>)>,
    path: &PathRef,
    part: Vec<(Path, Entry<C>)>,
) -> Result<(), TreeErr>
    requires { IsPath path.now }
    ensures ok { OnOk result (pairs.new.items ≡ pairs.old.items ++ map (hung path.now) part.items) }
    ensures fits { OnOk result (AllFitBelow path.now part.items) }
    ensures err { IfErr result (IsLongPath (SomePasses path.now part.items)) }
{
    let mut rest = VecDeque::from(part);
    'entries: loop {
        let Some(entry) = rest.pop_front() else {
            return Ok(());
        };
        match append_below(alloc, pairs, path, entry) {
            Ok(()) => {}
            Err(refused) => return Err(refused),
        }
    }
}

// Appends an entry below the path.
fn append_below<C: Drop>(
    alloc: Global,
    pairs: &mut Vec<(Path, Entry<C>)>,
    path: &PathRef,
    entry: (Path, Entry<C>),
) -> Result<(), TreeErr>
    requires { IsPath path.now }
    ensures ok { OnOk result (pairs.new.items ≡ pairs.old.items ++ hung path.now entry ∷ []) }
    ensures fits { OnOk result (IsPath (path.now ++ entry.0)) }
    ensures err { IfErr result (IsLongPath (¬ IsPath (path.now ++ entry.0))) }
{
    match hung(alloc, path, entry) {
        Ok(pair) => Ok(append_pair(pairs, pair)?),
        Err(refused) => Err(refused),
    }
}

// Appends an entry.
fn append_pair<C: Drop>(
    pairs: &mut Vec<(Path, Entry<C>)>,
    pair: (Path, Entry<C>),
) -> Result<(), OutOfMemory>
    ensures { OnOk result (pairs.new.items ≡ pairs.old.items ++ pair ∷ []) }
{
    pairs.push(pair)?;
    Ok(())
}

// An entry below the path.
fn hung<C: Drop>(
    alloc: Global,
    path: &PathRef,
    entry: (Path, Entry<C>),
) -> Result<(Path, Entry<C>), TreeErr>
    requires { IsPath path.now }
    ensures ok { IfOk result (λ pair. (pair ≡ hung path.now entry) × IsPath (path.now ++ entry.0)) }
    ensures err { IfErr result (IsLongPath (¬ IsPath (path.now ++ entry.0))) }
{
    match path.join(alloc, &entry.0.names()) {
        Ok(longer) => Ok((longer, entry.1)),
        Err(PathErr::OutOfMemory) => Err(TreeErr::OutOfMemory),
        Err(_) => Err(TreeErr::Path),
    }
}
