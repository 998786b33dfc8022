// Removing what stands at and below a path, or some names of a folder. How many paths still may be removed is counted down
// before each removal, so that one that failed counts.
ghost use Rattle.std.specs.Prelude.{◌≡◌, ◌≢◌, ◌+◌, ◌-◌, ◌*◌, [], length, IfErr};
ghost use Rattle.ext_text.specs.Path.{is_prefix, is_proper_prefix};
ghost use Rattle.ext_disk.specs.Calls.{remove, MayCall};
ghost use Rattle.ext_disk.specs.Lookups.{MayList};
ghost use Rattle.ext_store_files.specs.Removal.{is_below_any, CleanCause, Clears};

use crate::errors::CleanErr;
use crate::paths::child_named;
use ext_disk::{Disk, Kind};
use ext_text::{Name, Path};
use std::alloc::Global;

/// Removes what stands at a path other than the root, and all below it: what lies deeper goes first.
///
/// # Errors
/// `Unfinished` where no more may be removed and something still stands there, a fault of the disk, out of memory.
#[cycle(clearing)]
pub(crate) fn clear<D: Disk>(
    alloc: Global,
    disk: &mut D,
    path: &Path,
    most: &mut u32,
) -> Result<(), CleanErr>
    requires { path.now ≢ [] }
    ensures clears { Clears (is_prefix path.now) result most.old most.new (D.state disk.old) (D.state disk.new) }
    ensures cause { IfErr result (CleanCause (D.state disk.old).faults (D.state disk.new).faults) }
{
    match disk.kind(path)? {
        None => Ok(()),
        Some(Kind::File(_)) => remove_one(disk, path, most),
        Some(Kind::Dir) => {
            clear_below(alloc, disk, path, most)?;
            remove_one(disk, path, most)
        }
    }
}

// Removes all that stands in a folder.
#[cycle(clearing)]
fn clear_below<D: Disk>(
    alloc: Global,
    disk: &mut D,
    dir: &Path,
    most: &mut u32,
) -> Result<(), CleanErr>
    requires { MayList (D.state disk.old) dir.now }
    ensures clears { Clears (is_proper_prefix dir.now) result most.old most.new (D.state disk.old) (D.state disk.new) }
    ensures cause { IfErr result (CleanCause (D.state disk.old).faults (D.state disk.new).faults) }
{
    let names = disk.list(alloc, dir)?;
    clear_all(alloc, disk, dir, names.as_slice(), most)
}

/// Removes what stands at and below these names in a folder.
///
/// # Errors
/// As for `clear`.
#[cycle(clearing)]
pub(crate) fn clear_all<D: Disk>(
    alloc: Global,
    disk: &mut D,
    dir: &Path,
    names: &[Name],
    most: &mut u32,
) -> Result<(), CleanErr>
    ensures clears { Clears (is_below_any dir.now names.now) result most.old most.new (D.state disk.old) (D.state disk.new) }
    ensures cause { IfErr result (CleanCause (D.state disk.old).faults (D.state disk.new).faults) }
{
    'names: for name in names {
        let path = child_named(dir, name)?;
        clear(alloc, disk, &path, most)?;
    }
    Ok(())
}

// Removes a file or an empty folder, if one more may be removed.
fn remove_one<D: Disk>(disk: &mut D, path: &Path, most: &mut u32) -> Result<(), CleanErr>
    requires { MayCall (remove path.now) (D.state disk.old) }
    ensures clears { Clears (is_prefix path.now) result most.old most.new (D.state disk.old) (D.state disk.new) }
    ensures cause { IfErr result (CleanCause (D.state disk.old).faults (D.state disk.new).faults) }
{
    if *most == 0 {
        return Err(CleanErr::Unfinished);
    }
    *most -= 1;
    disk.remove(path)?;
    Ok(())
}
