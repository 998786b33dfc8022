// The names in a real folder.
ghost use Rattle.std.specs.Prelude.{◌≡◌, ◌∷◌, ◌++◌, [], IfOk, OnOk};
ghost use Rattle.std.specs.List.{AllByRecursion};
ghost use Rattle.std.specs.List.Sorted.{IsStrictlySortedBy};
ghost use Rattle.ext_text.specs.Name.{bytes_cmp};
ghost use Rattle.ext_text.specs.Path.{IsPath};

use crate::folder::Folder;
use crate::folder_err::FolderErr;
use crate::noted::read_some;
use ext_io::TRIES;
use ext_lines::allocated;
use ext_text::{Name, NameErr, Names, Path, PathErr};
use std::alloc::Global;
use std::collections::BTreeSet;
use std::fs::Files;
use std::io::{ErrorKind, Read};

/// The most bytes of names that are asked for in one read.
const PIECE: usize = 32_768;

impl<R: Files> Folder<R> {
    /// The names in a folder, in byte order.
    ///
    /// # Errors
    /// - No folder stands there, the system refused, or a listed name is no name or makes no path with the folder.
    /// - `OutOfMemory`.
    pub(crate) fn list(&mut self, alloc: Global, dir: &Path) -> Result<Names, FolderErr>
        ensures same { self.new ≡ self.old }
        ensures sorted { IfOk result (IsStrictlySortedBy bytes_cmp) }
        ensures paths { IfOk result (AllByRecursion (λ n. IsPath (dir.now ++ n ∷ []))) }
    {
        let mut location = self.location(dir)?;
        self.need_folder(location.as_str())?;
        if dir.is_root() {
            // Only with a slash is a link to a folder followed, as the root may be.
            allocated(location.push('/'))?;
        }
        let mut listed = open_again(&self.rt, location.as_str())?;
        in_order(alloc, dir, names_of(alloc, &mut listed)?)
    }
}

// A folder that is opened for its names, and again where the system was interrupted, but not without end.
fn open_again<R: Files>(rt: &R, location: &str) -> Result<R::Dir, FolderErr> {
    for _ in 0..TRIES {
        match rt.open_dir(location) {
            Err(error) if error.kind() == ErrorKind::Interrupted => {}
            Err(error) => return Err(FolderErr::Refused(error)),
            Ok(listed) => return Ok(listed),
        }
    }
    Err(FolderErr::Stuck)
}

// The names that a folder lists, but for itself and the folder above. The system gives no order, and may list a name twice
// where the folder changes meanwhile.
fn names_of<D: Read>(alloc: Global, listed: &mut D) -> Result<BTreeSet<Name>, FolderErr> {
    let mut names = BTreeSet::new(alloc);
    let mut piece = allocated(vec![in alloc; 0u8; PIECE])?;
    'pieces: for _ in 0..u64::MAX {
        let count = read_some(listed, &mut piece)?;
        if count == 0 {
            return Ok(names);
        }
        add_names(alloc, &mut names, &piece[..count])?;
    }
    Err(FolderErr::Stuck)
}

// Adds the names of a piece of a listing, each of which ends with a byte 0. No piece ends inside a name.
fn add_names(alloc: Global, names: &mut BTreeSet<Name>, piece: &[u8]) -> Result<(), FolderErr> {
    'names: for bytes in piece.split(|byte| *byte == 0) {
        if !is_left_out(bytes) {
            allocated(names.insert(read_name(alloc, bytes)?))?;
        }
    }
    Ok(())
}

// What stands after the last name of a piece, the folder itself, and the folder above it.
fn is_left_out(bytes: &[u8]) -> bool {
    bytes.is_empty() || bytes == b".".as_slice() || bytes == b"..".as_slice()
}

fn read_name(alloc: Global, bytes: &[u8]) -> Result<Name, FolderErr> {
    match Name::read(alloc, bytes) {
        Ok(name) => Ok(name),
        Err(NameErr::OutOfMemory) => Err(FolderErr::OutOfMemory),
        Err(NameErr::BadName) => Err(FolderErr::BadName),
    }
}

// The names in byte order, each of which makes a path with the folder.
fn in_order(alloc: Global, dir: &Path, found: BTreeSet<Name>) -> Result<Names, FolderErr>
    ensures sorted { IfOk result (IsStrictlySortedBy bytes_cmp) }
    ensures paths { IfOk result (AllByRecursion (λ n. IsPath (dir.now ++ n ∷ []))) }
{
    let mut names = Names::new(alloc);
    'names: for name in found {
        need_path(dir, &name)?;
        names.push(name)?;
    }
    Ok(names)
}

// That the name makes no path with the folder is a fault.
fn need_path(dir: &Path, name: &Name) -> Result<(), FolderErr>
    ensures { OnOk result (IsPath (dir.now ++ name.now ∷ [])) }
{
    match dir.child(name) {
        Ok(_path) => Ok(()),
        Err(PathErr::OutOfMemory) => Err(FolderErr::OutOfMemory),
        Err(_) => Err(FolderErr::BadName),
    }
}
