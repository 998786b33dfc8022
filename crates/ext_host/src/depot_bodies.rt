// Trees whose files are in the depot.
ghost use Rattle.std.specs.Prelude.{◌≡◌, ◌++◌, IfErr, IfOk};
ghost use Rattle.ext_text.specs.Path.{IsPath};
ghost use Rattle.ext_host.specs.DepotBodies.{FileFits, FitsErr, GivesFromDepot, HasFileErr, JoinErr, from_depot, in_depot, pair_in_depot};
ghost use Rattle.std.specs.List.{AllByRecursion};

use crate::depot_path::DepotPath;
use crate::held::Held;
use ext_lines::allocated;
use ext_text::{Path, PathErr};
use ext_tree::{Entry, Stamp, Tree, TreeErr};
use std::alloc::Global;

/// The same tree with each file's body in the depot, at its path below `res`.
///
/// # Errors
/// `Path` exactly where a file's path below `res` passes the limits of a path. `OutOfMemory` may come at any time, and
/// nothing else comes.
pub fn from_depot(alloc: Global, tree: Tree<Stamp>, res: &Path) -> Result<Tree<Held>, TreeErr>
    ensures { GivesFromDepot res.now tree result }
{
    let pairs = pairs_at(alloc, tree.into_pairs(), res)?;
    Ok(Tree::from_pairs(pairs))
}

// The entries, each file's with a body below `res`.
fn pairs_at(
    alloc: Global,
    pairs: Vec<(Path, Entry<Stamp>)>,
    res: &Path,
) -> Result<Vec<(Path, Entry<Held>)>, TreeErr>
    ensures ok { IfOk result (λ placed. (placed.items ≡ from_depot res.now pairs.items) × AllByRecursion (FileFits res.now) pairs.items) }
    ensures err { IfErr result (FitsErr res.now pairs.items) }
{
    let mut placed = allocated(Vec::with_capacity(alloc, pairs.len()))?;
    for pair in pairs {
        allocated(placed.push(pair_at(alloc, pair, res)?))?;
    }
    Ok(placed)
}

// The entry, a file's with a body below `res`.
fn pair_at(
    alloc: Global,
    pair: (Path, Entry<Stamp>),
    res: &Path,
) -> Result<(Path, Entry<Held>), TreeErr>
    ensures ok { IfOk result (λ placed. (placed ≡ pair_in_depot res.now pair) × FileFits res.now pair) }
    ensures err { IfErr result (HasFileErr res.now pair) }
{
    let (path, entry) = pair;
    let entry = entry_at(alloc, entry, &path, res)?;
    Ok((path, entry))
}

// The path's entry, a file's with a body below `res`.
fn entry_at(
    alloc: Global,
    entry: Entry<Stamp>,
    path: &Path,
    res: &Path,
) -> Result<Entry<Held>, TreeErr>
    ensures ok { IfOk result (λ placed. (placed ≡ in_depot (res.now ++ path.now) entry) × FileFits res.now (path.now, entry)) }
    ensures err { IfErr result (HasFileErr res.now (path.now, entry)) }
{
    match entry {
        Entry::Dir(attributes) => Ok(Entry::Dir(attributes)),
        Entry::Opaque(attributes) => Ok(Entry::Opaque(attributes)),
        Entry::File(attributes, stamp) => {
            let path = DepotPath::new(alloc, joined(res, path)?)?;
            Ok(Entry::File(attributes, Held::depot(stamp, path)))
        }
        Entry::Link(owner, target) => Ok(Entry::Link(owner, target)),
        Entry::Hide => Ok(Entry::Hide),
    }
}

// The path below `res`.
fn joined(res: &Path, path: &Path) -> Result<Path, TreeErr>
    ensures ok { IfOk result (λ joined. (joined ≡ res.now ++ path.now) × IsPath (res.now ++ path.now)) }
    ensures err { IfErr result (JoinErr (res.now ++ path.now)) }
{
    match res.join(path) {
        Ok(joined) => Ok(joined),
        Err(PathErr::OutOfMemory) => Err(TreeErr::OutOfMemory),
        Err(PathErr::TooLong | PathErr::TooDeep | PathErr::BadName) => Err(TreeErr::Path),
    }
}
