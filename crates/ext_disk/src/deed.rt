// What was done to a disk in memory, from which its past is known.
ghost use Rattle.std.specs.Prelude.{◌≡◌, IfOk};
ghost use Rattle.ext_disk.specs.Calls.{make_dir, make_file, append, sync_file, sync_dir, rename, remove};

use crate::pieces::Piece;
use ext_text::{OutOfMemory, Path};
use std::alloc::Global;

/// One of the calls that change something, with its paths and bytes.
#[derive(Drop)]
pub(crate) enum Deed {
    MakeDir(Path),
    MakeFile(Path),
    Append(Path, Piece),
    SyncFile(Path),
    SyncDir(Path),
    Rename(Path, Path),
    Remove(Path),
}

impl Deed {
    ghost use Rattle.ext_disk.specs.Deeds.{call_of};

    pub(crate) fn make_dir(path: &Path) -> Result<Deed, OutOfMemory>
        ensures { IfOk result (λ deed. make_dir path.now ≡ call_of deed) }
    {
        Ok(Deed::MakeDir(path.copy()?))
    }

    pub(crate) fn make_file(path: &Path) -> Result<Deed, OutOfMemory>
        ensures { IfOk result (λ deed. make_file path.now ≡ call_of deed) }
    {
        Ok(Deed::MakeFile(path.copy()?))
    }

    pub(crate) fn append(alloc: Global, path: &Path, bytes: &[u8]) -> Result<Deed, OutOfMemory>
        ensures { IfOk result (λ deed. append path.now bytes.now ≡ call_of deed) }
    {
        let path = path.copy()?;
        let piece = Piece::from_bytes(alloc, bytes)?;
        Ok(Deed::Append(path, piece))
    }

    pub(crate) fn sync_file(path: &Path) -> Result<Deed, OutOfMemory>
        ensures { IfOk result (λ deed. sync_file path.now ≡ call_of deed) }
    {
        Ok(Deed::SyncFile(path.copy()?))
    }

    pub(crate) fn sync_dir(dir: &Path) -> Result<Deed, OutOfMemory>
        ensures { IfOk result (λ deed. sync_dir dir.now ≡ call_of deed) }
    {
        Ok(Deed::SyncDir(dir.copy()?))
    }

    pub(crate) fn rename(from: &Path, to: &Path) -> Result<Deed, OutOfMemory>
        ensures { IfOk result (λ deed. rename from.now to.now ≡ call_of deed) }
    {
        let from = from.copy()?;
        let to = to.copy()?;
        Ok(Deed::Rename(from, to))
    }

    pub(crate) fn remove(path: &Path) -> Result<Deed, OutOfMemory>
        ensures { IfOk result (λ deed. remove path.now ≡ call_of deed) }
    {
        Ok(Deed::Remove(path.copy()?))
    }
}
