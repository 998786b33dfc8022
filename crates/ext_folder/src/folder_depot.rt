ghost use Rattle.std.specs.Prelude.{◌≡◌, ◌≤◌, length, is_ok, IfOk};
ghost use Rattle.ext_text.specs.Causes.{HasCause};
ghost use Rattle.ext_depot.specs.Depot.{IsKept, MayRead, IsSizeAt, IsReadOf};
ghost use Rattle.ext_folder.specs.Folder.{counted};

use crate::folder::Folder;
use crate::folder_err::FolderErr;
use crate::links::Links;
use crate::trouble::Trouble;
use ext_depot::Depot;
use ext_disk::Kind;
use ext_io::Failed;
use ext_text::{Path, Text};
use std::fs::Files;
use std::marker::Model;

/// A folder of the system as a depot, which has the files in it and below it. It tells nothing of them.
///
/// Links are followed. An entry that is neither a file nor a folder is a fault, and so is a link that leads nowhere.
/// Everything that the system refuses is one, and so is a failed allocation.
///
/// The file that is read stays open until its end was read, or another one is: who reads it piece after piece reads one file,
/// also where another one is put in its place meanwhile.
#[derive(Drop)]
pub struct FolderDepot<R: Files> {
    folder: Folder<R>,
}

impl<R: Files> Model for FolderDepot<R> {
    ghost use Rattle.ext_folder.specs.Folder.{FolderView};

    ghost Value = { FolderView };

    ghost view = { λ d. d.folder };
}

impl<R: Files> FolderDepot<R> {
    /// The files of the folder at this path of the system. An empty path names no folder, so that there is no file.
    pub fn new(rt: R, root: Text) -> FolderDepot<R>
        ensures { result ≡ record { root = root; faults = 0 } }
    {
        FolderDepot {
            folder: Folder::new(rt, root, Links::Followed),
        }
    }

    /// What went wrong first, if anything did.
    pub fn trouble(&self) -> Option<&Trouble> {
        self.folder.trouble()
    }

    // The size of the file at the path, if one stands there.
    fn file_size(&mut self, path: &Path) -> Result<Option<u64>, FolderErr>
        ensures { self.new ≡ self.old }
    {
        match self.folder.look(path)? {
            Some(Kind::File(size)) => Ok(Some(size)),
            Some(Kind::Dir) | None => Ok(None),
        }
    }
}

impl<R: Files> Depot for FolderDepot<R> {
    ghost use Rattle.ext_folder.specs.Folder.{folder_depot_state};

    ghost state = { folder_depot_state };

    /// Beside what each depot promises: exactly the calls that fail are counted.
    fn size(&mut self, path: &Path) -> Result<Option<u64>, Failed>
        ensures size { IfOk result (IsSizeAt (folder_depot_state self.old) path.now) }
        ensures kept { IsKept (folder_depot_state self.old) (folder_depot_state self.new) }
        ensures cause { HasCause result self.old.faults self.new.faults }
        ensures exact { self.new ≡ counted self.old (is_ok result) }
    {
        let size = self.file_size(path);
        self.folder.count_outcome("look at", path, size)
    }

    /// Beside what each depot promises: exactly the calls that fail are counted.
    fn read(&mut self, path: &Path, at: u64, buf: &mut [u8]) -> Result<usize, Failed>
        requires { MayRead (folder_depot_state self.old) path.now (length buf.old) }
        ensures within { IfOk result (λ count. count ≤ length buf.new) }
        ensures moved { IfOk result (IsReadOf (folder_depot_state self.old) path.now at buf.new) }
        ensures kept { IsKept (folder_depot_state self.old) (folder_depot_state self.new) }
        ensures cause { HasCause result self.old.faults self.new.faults }
        ensures exact { self.new ≡ counted self.old (is_ok result) }
    {
        let count = self.folder.read(path, at, buf);
        self.folder.count_outcome("read", path, count)
    }
}
