// What may not be written or removed, and what stands above what is written.
ghost use Rattle.std.specs.Prelude.{◌≡◌, ◌++◌, map, IfOk, OnOk};
ghost use Rattle.std.specs.List.{find};
ghost use Rattle.std.specs.Option.{option_copied};
ghost use Rattle.ext_text.specs.Prefix.{parent};
ghost use Rattle.ext_tree.specs.Tree.{IsTree};
ghost use Rattle.ext_host.specs.ReadOnly.{is_read_only};
ghost use Rattle.ext_update.specs.Drafts.{Holds, directories_of, is_blocking, least_blocking};

use crate::draft::{Arrival, CurrentLink, Draft};
use ext_host::{Held, Host};
use ext_text::{OutOfMemory, Path, SortedPaths};
use ext_tree::{Entry, Tree};
use std::alloc::Global;

// The first of the paths that a merge locks.
pub(crate) fn first_locked<'a>(host: &Host, paths: &'a [Path]) -> Option<&'a Path>
    ensures { option_copied result ≡ find (is_read_only host.now) paths.now }
{
    paths.iter().find(|path| host.locks(path))
}

// The least path of the tree at which something stands that is no directory, above what is written.
pub(crate) fn blocking(
    alloc: Global,
    tree: &Tree<Held>,
    draft: &Draft,
) -> Result<Option<Path>, OutOfMemory>
    ensures least { IfOk result (λ found. found ≡ least_blocking tree.now (directories_of draft.now)) }
    ensures tree { IfOk result (λ found. IsTree tree.now) }
{
    let directories = directories(alloc, draft)?;
    match first_blocking(tree.pairs(), &directories) {
        None => Ok(None),
        Some(pair) => Ok(Some(pair.0.copy()?)),
    }
}

// The directories of what is written, in path order.
fn directories(alloc: Global, draft: &Draft) -> Result<SortedPaths, OutOfMemory>
    ensures { IfOk result (Holds (directories_of draft.now)) }
{
    let mut paths = Vec::new(alloc);
    append_targets(&mut paths, draft.arrivals.as_slice())?;
    append_parents(&mut paths, draft.links.as_slice())?;
    Ok(SortedPaths::of(paths))
}

// Appends the targets of resources.
fn append_targets(paths: &mut Vec<Path>, arrivals: &[Arrival]) -> Result<(), OutOfMemory>
    ensures { OnOk result (paths.new.items ≡ paths.old.items ++ map (λ arrival. arrival.target) arrivals.now) }
{
    'arrivals: for arrival in arrivals {
        paths.push(arrival.target.copy()?)?;
    }
    Ok(())
}

// Appends the directories in which links are set.
fn append_parents(paths: &mut Vec<Path>, links: &[CurrentLink]) -> Result<(), OutOfMemory>
    ensures { OnOk result (paths.new.items ≡ paths.old.items ++ map (λ link. parent link.path) links.now) }
{
    'links: for link in links {
        paths.push(parent_of(&link.path)?)?;
    }
    Ok(())
}

// All names of a path but the last.
fn parent_of(path: &Path) -> Result<Path, OutOfMemory>
    ensures { IfOk result (λ above. above ≡ parent path.now) }
{
    path.prefix(path.depth().saturating_sub(1))
}

// The first entry that is no directory and stands at or above one of the directories.
fn first_blocking<'a>(
    pairs: &'a [(Path, Entry<Held>)],
    directories: &SortedPaths,
) -> Option<&'a (Path, Entry<Held>)>
    ensures { option_copied result ≡ find (is_blocking directories.now) pairs.now }
{
    pairs.iter().find(|pair| is_blocking(directories, pair))
}

// Whether the entry is no directory and stands at or above one of the directories.
fn is_blocking(directories: &SortedPaths, pair: &(Path, Entry<Held>)) -> bool
    ensures { result ≡ is_blocking directories.now pair.now }
{
    !pair.1.is_directory() && directories.has_below(&pair.0.names())
}
