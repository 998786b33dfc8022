ghost use Rattle.std.specs.Prelude.{◌≡◌, ◌≤◌, length, is_ok, IfOk, IfErr};
ghost use Rattle.ext_text.specs.Causes.{HasCause};
ghost use Rattle.ext_disk.specs.Calls.{look, make_dir, make_file, append, sync_file, sync_dir, rename, remove, MayCall, Does};
ghost use Rattle.ext_disk.specs.Lookups.{MayList, MayRead, Lists, ListCause, IsKindAt, IsReadOf};
ghost use Rattle.ext_folder.specs.Folder.{counted, CountsListing};

use crate::folder_disk::FolderDisk;
use crate::folder_err::FolderErr;
use crate::folder_lock::{FolderLock, Notice};
use crate::trouble::Trouble;
use ext_disk::{Disk, Kind, ListErr};
use ext_io::Failed;
use ext_text::{Names, Path};
use std::alloc::Global;
use std::fs::Files;
use std::marker::Model;

/// A folder of the system as a disk that is locked from the first call on. Where the lock can't be taken, each call is a
/// fault. Else it is the disk in it. The lock is held until the disk goes.
///
/// The lock is on a folder that was opened, and the disk works by its path. Whoever waited may find another folder there by
/// then, which somebody else has locked. So the two are compared once the lock is taken, and before each rename, which alone
/// lets others see what was written; where they differ, that call is a fault, and each after it.
#[derive(Drop)]
pub struct LockedDisk<R: Files, N: Notice + Drop> {
    disk: FolderDisk<R>,
    lock: FolderLock,
    notice: N,
}

impl<R: Files, N: Notice + Drop> Model for LockedDisk<R, N> {
    ghost use Rattle.ext_folder.specs.Folder.{FolderView};

    ghost Value = { FolderView };

    ghost view = { λ d. d.disk };
}

impl<R: Files, N: Notice + Drop> LockedDisk<R, N> {
    /// A disk, the lock on its folder, and who is told that the lock is waited for.
    pub fn new(disk: FolderDisk<R>, lock: FolderLock, notice: N) -> LockedDisk<R, N>
        ensures { result ≡ disk }
    {
        LockedDisk { disk, lock, notice }
    }

    /// What went wrong first, if anything did.
    pub fn trouble(&self) -> Option<&Trouble> {
        self.disk.trouble()
    }

    // That the lock can't be taken is a fault, and so is that it is no longer on the folder at the disk's path.
    fn take_lock(&mut self) -> Result<(), Failed>
        ensures counted { self.new ≡ counted self.old (is_ok result) }
        ensures count { self.old.faults ≤ self.new.faults }
        ensures cause { HasCause result self.old.faults self.new.faults }
    {
        if self.lock.is_settled() {
            return Ok(());
        }
        let call = self.lock.call();
        match self.lock.take(&mut self.notice) {
            Ok(()) => self.keep_lock(),
            Err(error) => Err(self.disk.refuse(call, &error)),
        }
    }

    // A lock that is held on another folder than the one at the disk's path is lost, which is a fault.
    fn keep_lock(&mut self) -> Result<(), Failed>
        ensures counted { self.new ≡ counted self.old (is_ok result) }
        ensures count { self.old.faults ≤ self.new.faults }
        ensures cause { HasCause result self.old.faults self.new.faults }
    {
        match self.compare() {
            Ok(()) => Ok(()),
            Err(error) => {
                self.lock.lose();
                Err(self.disk.refuse("lock", &error))
            }
        }
    }

    // That the lock is held on another folder than the one at the disk's path is a fault.
    fn compare(&self) -> Result<(), FolderErr> {
        match self.lock.held() {
            Some(opened) => self.disk.need_same(opened),
            None => Ok(()),
        }
    }

    // Takes the lock, and looks once more whether it is on the folder at the disk's path.
    fn confirm_lock(&mut self) -> Result<(), Failed>
        ensures counted { self.new ≡ counted self.old (is_ok result) }
        ensures count { self.old.faults ≤ self.new.faults }
        ensures cause { HasCause result self.old.faults self.new.faults }
    {
        if self.lock.is_settled() {
            self.keep_lock()
        } else {
            self.take_lock()
        }
    }
}

impl<R: Files, N: Notice + Drop> Disk for LockedDisk<R, N> {
    ghost use Rattle.ext_folder.specs.Folder.{disk_state};

    ghost state = { disk_state };

    ghost holds_a_tree = { λ _. tt };

    /// Beside what each disk promises: exactly the calls that fail are counted, names that find no memory not among them.
    fn list(&mut self, alloc: Global, dir: &Path) -> Result<Names, ListErr>
        requires { MayList (disk_state self.old) dir.now }
        ensures names { IfOk result (Lists (disk_state self.old) dir.now) }
        ensures does { Does look (disk_state self.old) (disk_state self.new) (is_ok result) }
        ensures cause { IfErr result (ListCause self.old.faults self.new.faults) }
        ensures exact { CountsListing self.old self.new result }
    {
        match self.take_lock() {
            Ok(()) => self.disk.list(alloc, dir),
            Err(Failed) => Err(ListErr::Failed),
        }
    }

    /// Beside what each disk promises: exactly the calls that fail are counted.
    fn kind(&mut self, path: &Path) -> Result<Option<Kind>, Failed>
        ensures kind { IfOk result (IsKindAt (disk_state self.old) path.now) }
        ensures does { Does look (disk_state self.old) (disk_state self.new) (is_ok result) }
        ensures cause { HasCause result self.old.faults self.new.faults }
        ensures exact { self.new ≡ counted self.old (is_ok result) }
    {
        self.take_lock()?;
        self.disk.kind(path)
    }

    /// Beside what each disk promises: exactly the calls that fail are counted.
    fn read(&mut self, path: &Path, at: u64, buf: &mut [u8]) -> Result<usize, Failed>
        requires { MayRead (disk_state self.old) path.now (length buf.old) }
        ensures within { IfOk result (λ count. count ≤ length buf.new) }
        ensures moved { IfOk result (IsReadOf (disk_state self.old) path.now at buf.new) }
        ensures does { Does look (disk_state self.old) (disk_state self.new) (is_ok result) }
        ensures cause { HasCause result self.old.faults self.new.faults }
        ensures exact { self.new ≡ counted self.old (is_ok result) }
    {
        self.take_lock()?;
        self.disk.read(path, at, buf)
    }

    /// Beside what each disk promises: exactly the calls that fail are counted.
    fn make_dir(&mut self, path: &Path) -> Result<(), Failed>
        requires { MayCall (make_dir path.now) (disk_state self.old) }
        ensures does { Does (make_dir path.now) (disk_state self.old) (disk_state self.new) (is_ok result) }
        ensures cause { HasCause result self.old.faults self.new.faults }
        ensures exact { self.new ≡ counted self.old (is_ok result) }
    {
        self.take_lock()?;
        self.disk.make_dir(path)
    }

    /// Beside what each disk promises: exactly the calls that fail are counted.
    fn make_file(&mut self, path: &Path) -> Result<(), Failed>
        requires { MayCall (make_file path.now) (disk_state self.old) }
        ensures does { Does (make_file path.now) (disk_state self.old) (disk_state self.new) (is_ok result) }
        ensures cause { HasCause result self.old.faults self.new.faults }
        ensures exact { self.new ≡ counted self.old (is_ok result) }
    {
        self.take_lock()?;
        self.disk.make_file(path)
    }

    /// Beside what each disk promises: exactly the calls that fail are counted.
    fn append(&mut self, path: &Path, bytes: &[u8]) -> Result<(), Failed>
        requires { MayCall (append path.now bytes.now) (disk_state self.old) }
        ensures does { Does (append path.now bytes.now) (disk_state self.old) (disk_state self.new) (is_ok result) }
        ensures cause { HasCause result self.old.faults self.new.faults }
        ensures exact { self.new ≡ counted self.old (is_ok result) }
    {
        self.take_lock()?;
        self.disk.append(path, bytes)
    }

    /// Beside what each disk promises: exactly the calls that fail are counted.
    fn sync_file(&mut self, path: &Path) -> Result<(), Failed>
        requires { MayCall (sync_file path.now) (disk_state self.old) }
        ensures does { Does (sync_file path.now) (disk_state self.old) (disk_state self.new) (is_ok result) }
        ensures cause { HasCause result self.old.faults self.new.faults }
        ensures exact { self.new ≡ counted self.old (is_ok result) }
    {
        self.take_lock()?;
        self.disk.sync_file(path)
    }

    /// Beside what each disk promises: exactly the calls that fail are counted.
    fn sync_dir(&mut self, dir: &Path) -> Result<(), Failed>
        requires { MayCall (sync_dir dir.now) (disk_state self.old) }
        ensures does { Does (sync_dir dir.now) (disk_state self.old) (disk_state self.new) (is_ok result) }
        ensures cause { HasCause result self.old.faults self.new.faults }
        ensures exact { self.new ≡ counted self.old (is_ok result) }
    {
        self.take_lock()?;
        self.disk.sync_dir(dir)
    }

    /// Beside what each disk promises: exactly the calls that fail are counted.
    fn rename(&mut self, from: &Path, to: &Path) -> Result<(), Failed>
        requires { MayCall (rename from.now to.now) (disk_state self.old) }
        ensures does { Does (rename from.now to.now) (disk_state self.old) (disk_state self.new) (is_ok result) }
        ensures cause { HasCause result self.old.faults self.new.faults }
        ensures exact { self.new ≡ counted self.old (is_ok result) }
    {
        self.confirm_lock()?;
        self.disk.rename(from, to)
    }

    /// Beside what each disk promises: exactly the calls that fail are counted.
    fn remove(&mut self, path: &Path) -> Result<(), Failed>
        requires { MayCall (remove path.now) (disk_state self.old) }
        ensures does { Does (remove path.now) (disk_state self.old) (disk_state self.new) (is_ok result) }
        ensures cause { HasCause result self.old.faults self.new.faults }
        ensures exact { self.new ≡ counted self.old (is_ok result) }
    {
        self.take_lock()?;
        self.disk.remove(path)
    }
}
