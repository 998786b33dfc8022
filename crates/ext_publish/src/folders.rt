// The folders from the depot's root to the one in which a resource is published, and those below it.
ghost use Rattle.std.specs.Prelude.{◌≡◌, ◌++◌, ◌∷◌, ℕ, List, [], IfErr, IfOk};
ghost use Rattle.std.specs.Result.{is_ok};
ghost use Rattle.ext_text.specs.Causes.{Rose};
ghost use Rattle.ext_text.specs.Name.{IsName};
ghost use Rattle.ext_disk.specs.Calls.{Does, MayCall, look, make_dir, sync_dir};
ghost use Rattle.ext_disk.specs.Lookups.{IsKindAt, MayList};
ghost use Rattle.ext_disk.specs.Since.{Rests};
ghost use Rattle.ext_store_files.specs.Writing.{Works, nowhere};
ghost use Rattle.ext_publish.specs.Folders.{MakesFolder, MakesDown, MayMake, MayMakeDown};
ghost use Rattle.ext_publish.specs.Stopping.{OutCause};
ghost use Rattle.ext_publish.specs.declared.stop.Stop.TheVariants as stops;

use crate::stop::Stop;
use ext_disk::{Disk, Kind};
use ext_text::{OutOfMemory, Path, PathRef};
use std::alloc::Global;

/// Syncs the root of the depot and, where the folder is there, each folder from the root to it: a rename or a name that an
/// earlier run left unsynced is settled so.
pub(crate) fn sync_above<O: Disk>(alloc: Global, out: &mut O, folder: &Path) -> Result<(), Stop>
    ensures works { Works nowhere nowhere 0 (O.state out.old) (O.state out.new) }
    ensures cause { IfErr result (OutCause (O.state out.old) (O.state out.new)) }
{
    let root = Path::root(alloc);
    sync_at(out, &root)?;
    match kind_at(out, folder)? {
        Some(Kind::Dir) => sync_to(out, folder),
        _ => Ok(()),
    }
}

// Syncs each folder from the root, not counted, to a folder that is there.
fn sync_to<O: Disk>(out: &mut O, folder: &Path) -> Result<(), Stop>
    requires { MayList (O.state out.old) folder.now }
    ensures works { Works nowhere nowhere 0 (O.state out.old) (O.state out.new) }
    ensures cause { IfErr result (OutCause (O.state out.old) (O.state out.new)) }
{
    let mut depth = 0;
    'depths: while depth < folder.depth() {
        let path = folder.prefix(depth + 1)?;
        sync_at(out, &path)?;
        depth += 1;
    }
    Ok(())
}

/// MakesFolder the folders that are missing from one that is there down to that of the names below it, from the top down, and syncs
/// the parent of each at once.
pub(crate) fn make_down<O: Disk>(out: &mut O, base: &Path, names: &PathRef) -> Result<(), Stop>
    requires { MayMakeDown base.now names.now (O.state out.old) }
    ensures makes { MakesDown base.now names.now result (O.state out.old) (O.state out.new) }
    ensures cause { IfErr result (OutCause (O.state out.old) (O.state out.new)) }
{
    let mut above = base.copy()?;
    let mut left = names.again();
    'names: loop {
        match left.split_first() {
            None => return Ok(()),
            Some((name, below)) => {
                let path = child_in(&above, name)?;
                make_in(out, &above, &path)?;
                above = path;
                left = below;
            }
        }
    }
}

// The path of a name in a folder.
fn child_in(above: &Path, name: &[u8]) -> Result<Path, OutOfMemory>
    requires { IsName name.now }
    ensures { IfOk result (λ path. path ≡ above.now ++ name.now ∷ []) }
{
    match above.child_of(name) {
        Ok(path) => Ok(path),
        Err(_) => Err(OutOfMemory),
    }
}

// MakesFolder a folder in another one, unless it is there, and syncs that one.
fn make_in<O: Disk>(out: &mut O, above: &Path, path: &Path) -> Result<(), Stop>
    requires child { (name : List ℕ) × (path.now ≡ above.now ++ name ∷ []) }
    requires may { MayMake above.now path.now (O.state out.old) }
    ensures makes { MakesFolder path.now result (O.state out.old) (O.state out.new) }
    ensures cause { IfErr result (OutCause (O.state out.old) (O.state out.new)) }
{
    match kind_at(out, path)? {
        Some(_) => Ok(()),
        None => {
            make_at(out, path)?;
            sync_at(out, above)
        }
    }
}

// What stands at a path of the depot's folder.
fn kind_at<O: Disk>(out: &mut O, path: &Path) -> Result<Option<Kind>, Stop>
    ensures kind { IfOk result (IsKindAt (O.state out.old) path.now) }
    ensures rests { Rests (O.state out.old) (O.state out.new) }
    ensures cause { IfErr result (λ e. (e ≡ stops.OutFault) × Rose (O.state out.old).faults (O.state out.new).faults) }
{
    match out.kind(path) {
        Ok(kind) => Ok(kind),
        Err(_) => Err(Stop::OutFault),
    }
}

// MakesFolder a folder in the depot.
fn make_at<O: Disk>(out: &mut O, path: &Path) -> Result<(), Stop>
    requires { MayCall (make_dir path.now) (O.state out.old) }
    ensures does { Does (make_dir path.now) (O.state out.old) (O.state out.new) (is_ok result) }
    ensures cause { IfErr result (λ e. (e ≡ stops.OutFault) × Rose (O.state out.old).faults (O.state out.new).faults) }
{
    match out.make_dir(path) {
        Ok(()) => Ok(()),
        Err(_) => Err(Stop::OutFault),
    }
}

/// Syncs the names in a folder of the depot.
pub(crate) fn sync_at<O: Disk>(out: &mut O, path: &Path) -> Result<(), Stop>
    requires { MayCall (sync_dir path.now) (O.state out.old) }
    ensures does { Does (sync_dir path.now) (O.state out.old) (O.state out.new) (is_ok result) }
    ensures cause { IfErr result (λ e. (e ≡ stops.OutFault) × Rose (O.state out.old).faults (O.state out.new).faults) }
{
    match out.sync_dir(path) {
        Ok(()) => Ok(()),
        Err(_) => Err(Stop::OutFault),
    }
}
