ghost use Rattle.std.specs.Prelude.{◌≡◌, ◌≤◌, length, false, is_ok, IfOk, IfErr};
ghost use Rattle.ext_text.specs.Causes.{HasCause, Rose};
ghost use Rattle.ext_disk.specs.Calls.{look, make_dir, make_file, append, sync_file, sync_dir, rename, remove, MayCall, Does};
ghost use Rattle.ext_disk.specs.Lookups.{MayList, MayRead, Lists, ListCause, IsKindAt, IsReadOf};
ghost use Rattle.ext_folder.specs.Folder.{counted, CountsListing};

use crate::folder::Folder;
use crate::folder_err::FolderErr;
use crate::links::Links;
use crate::modes::Modes;
use crate::trouble::Trouble;
use crate::writer::Writer;
use ext_disk::{Disk, Kind, ListErr};
use ext_io::Failed;
use ext_text::{Names, Path, Text};
use std::alloc::Global;
use std::fs::{File, Files, OpenFile};
use std::marker::Model;
use std::{fs, io};

/// A folder of the system as a disk, which has what stands in it and below it. It tells nothing of that.
///
/// The folder itself may be a link to one. A link below it is a file of its text's length, which `kind` tells, `list` names
/// and `remove` takes away. Every other call at it, or through it, is a fault that touches nothing past it. An entry that is
/// neither a file nor a folder is a fault everywhere. Everything that the system refuses is one, and so is a failed
/// allocation, but in `list`.
///
/// A system may tell once alone that it could not write something back, so a sync that failed is remembered: every later sync,
/// rename and removal fails.
///
/// The file that was made or appended to last stays open until it is synced, or until another one is made or appended to.
/// The file that is read stays open until its end was read or another one is. Where something was renamed or removed
/// meanwhile, a file that stayed open is used again only where its path still leads to it. So no call of the disk changes
/// what another one gives. What others do to the folder meanwhile is not looked for.
#[derive(Drop)]
pub struct FolderDisk<R: Files> {
    folder: Folder<R>,
    modes: Modes,
    // Whether a sync failed.
    unsynced: bool,
    last: Option<Writer<R>>,
}

impl<R: Files> Model for FolderDisk<R> {
    ghost use Rattle.ext_folder.specs.Folder.{FolderView};

    ghost Value = { FolderView };

    ghost view = { λ d. d.folder };
}

impl<R: Files> FolderDisk<R> {
    /// The disk in the folder at this path of the system. What it makes has the usual modes, which the process's umask cuts. An
    /// empty path names no folder.
    pub fn new(rt: R, root: Text) -> FolderDisk<R>
        ensures { result ≡ record { root = root; faults = 0 } }
    {
        FolderDisk::with(rt, root, Modes::Usual)
    }

    /// The same, and what it makes is its owner's alone: files of mode 600 and folders of mode 700, whatever the umask allows
    /// to others.
    pub fn private(rt: R, root: Text) -> FolderDisk<R>
        ensures { result ≡ record { root = root; faults = 0 } }
    {
        FolderDisk::with(rt, root, Modes::Private)
    }

    fn with(rt: R, root: Text, modes: Modes) -> FolderDisk<R>
        ensures { result ≡ record { root = root; faults = 0 } }
    {
        FolderDisk {
            folder: Folder::new(rt, root, Links::Refused),
            modes,
            unsynced: false,
            last: None,
        }
    }

    /// What went wrong first, if anything did.
    pub fn trouble(&self) -> Option<&Trouble> {
        self.folder.trouble()
    }

    /// That another folder stands at the root than this, which was opened there, is a fault.
    pub(crate) fn need_same(&self, opened: &File) -> Result<(), FolderErr> {
        self.folder.need_same(opened)
    }

    /// Counts a call that was refused before it came to the folder.
    pub(crate) fn refuse(&mut self, call: &'static str, error: &FolderErr) -> Failed
        ensures counted { self.new ≡ counted self.old false }
        ensures count { self.old.faults ≤ self.new.faults }
        ensures cause { Rose self.old.faults self.new.faults }
    {
        self.folder.count_fault(call, None, error);
        Failed
    }

    fn try_make_dir(&mut self, path: &Path) -> Result<(), FolderErr>
        ensures { self.new ≡ self.old }
    {
        let location = self.folder.location_below_root(path)?;
        let how = self.modes.of_folder();
        how.create(&self.folder.rt, location.as_str())?;
        Ok(())
    }

    fn try_make_file(&mut self, path: &Path) -> Result<(), FolderErr>
        ensures { self.new ≡ self.old }
    {
        let location = self.folder.location_below_root(path)?;
        self.last = Some(Writer::make(&self.folder.rt, location, self.modes)?);
        Ok(())
    }

    fn try_append(&mut self, path: &Path, bytes: &[u8]) -> Result<(), FolderErr>
        ensures { self.new ≡ self.old }
    {
        let mut writer = self.take_writer(path)?;
        let outcome = writer.append(bytes);
        self.last = Some(writer);
        outcome
    }

    // The file at the path, open for writing: the one that stayed open, where the path still leads to it.
    fn take_writer(&mut self, path: &Path) -> Result<Writer<R>, FolderErr>
        ensures { self.new ≡ self.old }
    {
        match self.take_last(path)? {
            Some(last) => Ok(last),
            None => {
                let location = self.folder.location(path)?;
                self.folder.file(location.as_str())?;
                Writer::open(&self.folder.rt, location)
            }
        }
    }

    // A file that stayed open is synced by the handle that wrote it, and then closed.
    fn try_sync_file(&mut self, path: &Path) -> Result<(), FolderErr>
        ensures { self.new ≡ self.old }
    {
        self.need_synced()?;
        match self.take_last(path)? {
            Some(last) => self.note_sync(last.sync()),
            None => {
                let location = self.folder.location(path)?;
                self.folder.file(location.as_str())?;
                self.sync_at(location.as_str())
            }
        }
    }

    // That a sync failed before is a fault.
    fn need_synced(&self) -> Result<(), FolderErr> {
        if self.unsynced {
            return Err(FolderErr::Unsynced);
        }
        Ok(())
    }

    // Waits until what was written to the entry at a location is on the disk: a file's bytes and length, a folder's names.
    fn sync_at(&mut self, location: &str) -> Result<(), FolderErr>
        ensures { self.new ≡ self.old }
    {
        let entry = fs::open(&self.folder.rt, location)?;
        self.note_sync(entry.sync_all())
    }

    // What came of a sync. That it failed is remembered.
    fn note_sync(&mut self, outcome: io::Result<()>) -> Result<(), FolderErr>
        ensures { self.new ≡ self.old }
    {
        self.unsynced = self.unsynced || outcome.is_err();
        outcome?;
        Ok(())
    }

    // The file that stayed open, where the path leads to it. Another one stays open.
    fn take_last(&mut self, path: &Path) -> Result<Option<Writer<R>>, FolderErr>
        ensures { self.new ≡ self.old }
    {
        match self.last.take() {
            Some(last) if self.folder.is_location(last.location(), path) => self.still_led_to(last),
            other => {
                self.last = other;
                Ok(None)
            }
        }
    }

    // The file that stayed open, where its location leads to it also after what was renamed or removed.
    fn still_led_to(&self, last: Writer<R>) -> Result<Option<Writer<R>>, FolderErr> {
        if last.is_sure() || last.is_same(&self.folder.file(last.location())?)? {
            Ok(Some(last))
        } else {
            Ok(None)
        }
    }

    // A file can be opened and synced as well, so a folder has to be found first.
    fn try_sync_dir(&mut self, dir: &Path) -> Result<(), FolderErr>
        ensures { self.new ≡ self.old }
    {
        self.need_synced()?;
        let location = self.folder.location(dir)?;
        self.folder.need_folder(location.as_str())?;
        self.sync_at(location.as_str())
    }

    fn try_rename(&mut self, from: &Path, to: &Path) -> Result<(), FolderErr>
        ensures { self.new ≡ self.old }
    {
        self.need_synced()?;
        let from = self.folder.location_below_root(from)?;
        let to = self.folder.location_below_root(to)?;
        self.folder.file(from.as_str())?;
        self.folder.need_room_for_file(to.as_str())?;
        self.may_lead_elsewhere();
        fs::rename(&self.folder.rt, from.as_str(), to.as_str())?;
        self.close_at(from.as_str());
        self.close_at(to.as_str());
        Ok(())
    }

    // Where the last look found a file at the path, the system is not asked again what stands there.
    fn try_remove(&mut self, path: &Path) -> Result<(), FolderErr>
        ensures { self.new ≡ self.old }
    {
        self.need_synced()?;
        if let Some(location) = self.folder.take_found(path) {
            return self.remove_file(location.as_str());
        }
        let location = self.folder.location_below_root(path)?;
        match self.folder.entry(location.as_str())?.kind()? {
            Some(Kind::Dir) => self.remove_dir(location.as_str()),
            Some(Kind::File(_size)) => self.remove_file(location.as_str()),
            None => Err(FolderErr::Missing),
        }
    }

    fn remove_file(&mut self, location: &str) -> Result<(), FolderErr>
        ensures { self.new ≡ self.old }
    {
        self.may_lead_elsewhere();
        fs::remove_file(&self.folder.rt, location)?;
        self.close_at(location);
        Ok(())
    }

    fn remove_dir(&mut self, location: &str) -> Result<(), FolderErr>
        ensures { self.new ≡ self.old }
    {
        self.may_lead_elsewhere();
        fs::remove_dir(&self.folder.rt, location)?;
        self.close_at(location);
        Ok(())
    }

    // Something is to be renamed or removed, so any path may lead elsewhere afterwards.
    fn may_lead_elsewhere(&mut self)
        ensures { self.new ≡ self.old }
    {
        self.folder.forget();
        self.last = match self.last.take() {
            Some(last) => Some(last.unsure()),
            None => None,
        };
    }

    // Closes the file that stayed open, where it was opened at the location or below it.
    fn close_at(&mut self, location: &str)
        ensures { self.new ≡ self.old }
    {
        match self.last.take() {
            Some(last) if last.is_at_or_below(location) => {}
            other => self.last = other,
        }
    }
}

impl<R: Files> Disk for FolderDisk<R> {
    ghost use Rattle.ext_folder.specs.Folder.{disk_state};

    ghost state = { disk_state };

    ghost holds_a_tree = { λ _. tt };

    /// Beside what each disk promises: exactly the calls that fail are counted, names that find no memory not among them.
    fn list(&mut self, alloc: Global, dir: &Path) -> Result<Names, ListErr>
        requires { MayList (disk_state self.old) dir.now }
        ensures names { IfOk result (Lists (disk_state self.old) dir.now) }
        ensures does { Does look (disk_state self.old) (disk_state self.new) (is_ok result) }
        ensures cause { IfErr result (ListCause self.old.faults self.new.faults) }
        ensures exact { CountsListing self.old self.new result }
    {
        match self.folder.list(alloc, dir) {
            Ok(names) => Ok(names),
            Err(FolderErr::OutOfMemory) => Err(ListErr::OutOfMemory),
            Err(error) => {
                self.folder.count_fault("list", Some(dir), &error);
                Err(ListErr::Failed)
            }
        }
    }

    /// Beside what each disk promises: exactly the calls that fail are counted.
    fn kind(&mut self, path: &Path) -> Result<Option<Kind>, Failed>
        ensures kind { IfOk result (IsKindAt (disk_state self.old) path.now) }
        ensures does { Does look (disk_state self.old) (disk_state self.new) (is_ok result) }
        ensures cause { HasCause result self.old.faults self.new.faults }
        ensures exact { self.new ≡ counted self.old (is_ok result) }
    {
        let kind = self.folder.look(path);
        self.folder.count_outcome("look at", path, kind)
    }

    /// Beside what each disk promises: exactly the calls that fail are counted.
    fn read(&mut self, path: &Path, at: u64, buf: &mut [u8]) -> Result<usize, Failed>
        requires { MayRead (disk_state self.old) path.now (length buf.old) }
        ensures within { IfOk result (λ count. count ≤ length buf.new) }
        ensures moved { IfOk result (IsReadOf (disk_state self.old) path.now at buf.new) }
        ensures does { Does look (disk_state self.old) (disk_state self.new) (is_ok result) }
        ensures cause { HasCause result self.old.faults self.new.faults }
        ensures exact { self.new ≡ counted self.old (is_ok result) }
    {
        let count = self.folder.read(path, at, buf);
        self.folder.count_outcome("read", path, count)
    }

    /// Beside what each disk promises: exactly the calls that fail are counted.
    fn make_dir(&mut self, path: &Path) -> Result<(), Failed>
        requires { MayCall (make_dir path.now) (disk_state self.old) }
        ensures does { Does (make_dir path.now) (disk_state self.old) (disk_state self.new) (is_ok result) }
        ensures cause { HasCause result self.old.faults self.new.faults }
        ensures exact { self.new ≡ counted self.old (is_ok result) }
    {
        let outcome = self.try_make_dir(path);
        self.folder.count_outcome("make", path, outcome)
    }

    /// Beside what each disk promises: exactly the calls that fail are counted.
    fn make_file(&mut self, path: &Path) -> Result<(), Failed>
        requires { MayCall (make_file path.now) (disk_state self.old) }
        ensures does { Does (make_file path.now) (disk_state self.old) (disk_state self.new) (is_ok result) }
        ensures cause { HasCause result self.old.faults self.new.faults }
        ensures exact { self.new ≡ counted self.old (is_ok result) }
    {
        let outcome = self.try_make_file(path);
        self.folder.count_outcome("make", path, outcome)
    }

    /// Beside what each disk promises: exactly the calls that fail are counted.
    fn append(&mut self, path: &Path, bytes: &[u8]) -> Result<(), Failed>
        requires { MayCall (append path.now bytes.now) (disk_state self.old) }
        ensures does { Does (append path.now bytes.now) (disk_state self.old) (disk_state self.new) (is_ok result) }
        ensures cause { HasCause result self.old.faults self.new.faults }
        ensures exact { self.new ≡ counted self.old (is_ok result) }
    {
        let outcome = self.try_append(path, bytes);
        self.folder.count_outcome("write", path, outcome)
    }

    /// Beside what each disk promises: exactly the calls that fail are counted.
    fn sync_file(&mut self, path: &Path) -> Result<(), Failed>
        requires { MayCall (sync_file path.now) (disk_state self.old) }
        ensures does { Does (sync_file path.now) (disk_state self.old) (disk_state self.new) (is_ok result) }
        ensures cause { HasCause result self.old.faults self.new.faults }
        ensures exact { self.new ≡ counted self.old (is_ok result) }
    {
        let outcome = self.try_sync_file(path);
        self.folder.count_outcome("sync", path, outcome)
    }

    /// Beside what each disk promises: exactly the calls that fail are counted.
    fn sync_dir(&mut self, dir: &Path) -> Result<(), Failed>
        requires { MayCall (sync_dir dir.now) (disk_state self.old) }
        ensures does { Does (sync_dir dir.now) (disk_state self.old) (disk_state self.new) (is_ok result) }
        ensures cause { HasCause result self.old.faults self.new.faults }
        ensures exact { self.new ≡ counted self.old (is_ok result) }
    {
        let outcome = self.try_sync_dir(dir);
        self.folder.count_outcome("sync", dir, outcome)
    }

    /// Beside what each disk promises: exactly the calls that fail are counted.
    fn rename(&mut self, from: &Path, to: &Path) -> Result<(), Failed>
        requires { MayCall (rename from.now to.now) (disk_state self.old) }
        ensures does { Does (rename from.now to.now) (disk_state self.old) (disk_state self.new) (is_ok result) }
        ensures cause { HasCause result self.old.faults self.new.faults }
        ensures exact { self.new ≡ counted self.old (is_ok result) }
    {
        let outcome = self.try_rename(from, to);
        self.folder.count_outcome("rename", from, outcome)
    }

    /// Beside what each disk promises: exactly the calls that fail are counted.
    fn remove(&mut self, path: &Path) -> Result<(), Failed>
        requires { MayCall (remove path.now) (disk_state self.old) }
        ensures does { Does (remove path.now) (disk_state self.old) (disk_state self.new) (is_ok result) }
        ensures cause { HasCause result self.old.faults self.new.faults }
        ensures exact { self.new ≡ counted self.old (is_ok result) }
    {
        let outcome = self.try_remove(path);
        self.folder.count_outcome("remove", path, outcome)
    }
}
