ghost use Rattle.std.specs.Prelude.{◌≡◌, ◌≤◌, length, false, is_ok, IsErr, IfOk, MatchResult};
ghost use Rattle.ext_text.specs.Causes.{HasCause, Rose};
ghost use Rattle.ext_folder.specs.Folder.{counted};

use crate::entry::Entry;
use crate::folder_err::FolderErr;
use crate::links::Links;
use crate::location::{folder_location, is_location, location};
use crate::reader::Reader;
use crate::trouble::Trouble;
use crate::ways::Ways;
use ext_disk::Kind;
use ext_io::{Failed, next_count};
use ext_lines::allocated;
use ext_text::{OutOfMemory, Path, PathRef, Text};
use std::fs::{File, Files, Metadata};
use std::io::ErrorKind;
use std::marker::Model;
use std::os::unix::fs::MetadataExt;
use std::{fs, io};

/// A folder of the system, and how often a call on it failed. The folder itself may be a link to one. What is done with
/// links below it is chosen where it is made. A file is opened only where it was found to be one, since opening a pipe would
/// wait for its other end.
///
/// The file that is read stays open until its end was read, or another one is. A read that goes on where the last one ended
/// asks the system for nothing else.
#[derive(Drop)]
pub(crate) struct Folder<R: Files> {
    pub(crate) rt: R,
    root: Vec<u8>,
    links: Links,
    faults: u64,
    // What went wrong first.
    trouble: Option<Trouble>,
    // Where links are refused: the folders that were reached through none.
    ways: Ways,
    // Where the last call that looked found a file.
    found: Option<String>,
    reader: Option<Reader<R>>,
}

impl<R: Files> Model for Folder<R> {
    ghost use Rattle.ext_folder.specs.Folder.{FolderView};

    ghost Value = { FolderView };

    ghost view = { λ f. record { root = f.root.items; faults = f.faults } };
}

impl<R: Files> Folder<R> {
    pub(crate) fn new(rt: R, root: Text, links: Links) -> Folder<R>
        ensures { result ≡ record { root = root; faults = 0 } }
    {
        Folder {
            rt,
            root: root.into_vec(),
            links,
            faults: 0,
            trouble: None,
            ways: Ways::new(),
            found: None,
            reader: None,
        }
    }

    /// What went wrong first, if anything did.
    pub(crate) fn trouble(&self) -> Option<&Trouble> {
        self.trouble.as_ref()
    }

    /// What came of a call of this name at a path, which is counted where it was not done.
    pub(crate) fn count_outcome<T>(
        &mut self,
        call: &'static str,
        path: &Path,
        outcome: Result<T, FolderErr>,
    ) -> Result<T, Failed>
        ensures counted { self.new ≡ counted self.old (is_ok result) }
        ensures count { self.old.faults ≤ self.new.faults }
        ensures cause { HasCause result self.old.faults self.new.faults }
        ensures same { MatchResult result (λ value. outcome ≡ Ok value) (λ _. IsErr outcome) }
    {
        match outcome {
            Ok(value) => Ok(value),
            Err(error) => {
                self.count_fault(call, Some(path), &error);
                Err(Failed)
            }
        }
    }

    /// Counts a call of this name that was not done, at a path, or at the folder itself.
    pub(crate) fn count_fault(&mut self, call: &'static str, path: Option<&Path>, error: &FolderErr)
        ensures counted { self.new ≡ counted self.old false }
        ensures count { self.old.faults ≤ self.new.faults }
        ensures cause { Rose self.old.faults self.new.faults }
    {
        if self.trouble.is_none() {
            self.trouble = self.trouble_of(call, path, error).ok();
        }
        self.faults = next_count(self.faults);
    }

    fn trouble_of(
        &self,
        call: &'static str,
        path: Option<&Path>,
        error: &FolderErr,
    ) -> Result<Trouble, FolderErr> {
        let alloc = *self.root.allocator();
        let location = match path {
            Some(path) => location(&self.root, path)?,
            None => folder_location(&self.root)?,
        };
        Ok(Trouble::new(alloc, call, location, error)?)
    }

    /// The system's path of what stands at a path. Where links are refused, it is a fault that one stands on the way.
    pub(crate) fn location(&mut self, path: &Path) -> Result<String, FolderErr>
        ensures { self.new ≡ self.old }
    {
        let location = location(&self.root, path)?;
        if let (Links::Refused, Some((folders, _last))) = (self.links, path.names().split_last()) {
            self.need_way(location.as_str(), &folders)?;
        }
        Ok(location)
    }

    /// The same, where the path is not the root, which is neither made, renamed nor removed.
    pub(crate) fn location_below_root(&mut self, path: &Path) -> Result<String, FolderErr>
        ensures { self.new ≡ self.old }
    {
        if path.is_root() {
            return Err(FolderErr::IsRoot);
        }
        self.location(path)
    }

    // That a link stands on the way to a location through these folders is a fault.
    fn need_way(&mut self, location: &str, folders: &PathRef) -> Result<(), FolderErr>
        ensures { self.new ≡ self.old }
    {
        let whole = match location.rsplit_once('/') {
            Some((whole, _last)) => whole,
            None => location,
        };
        if !folders.is_root() && !self.ways.has(whole) && self.are_folders(location, folders)? {
            self.keep_way(whole)?;
        }
        Ok(())
    }

    fn keep_way(&mut self, folder: &str) -> Result<(), OutOfMemory>
        ensures { self.new ≡ self.old }
    {
        let folder = allocated(String::from_str(*self.root.allocator(), folder))?;
        self.ways.keep(folder);
        Ok(())
    }

    // Whether each of the names at the beginning of a location below the root is that of a folder; a link is a fault.
    fn are_folders(&self, location: &str, names: &PathRef) -> Result<bool, FolderErr> {
        let below = self.root.len().saturating_add(1);
        for count in 0..names.depth() {
            let end = below.saturating_add(names.prefix(count + 1).text().len());
            let folder = location.get(..end).unwrap_or(location);
            if self.entry(folder)?.need_no_link()? != Entry::Folder {
                return Ok(false);
            }
        }
        Ok(true)
    }

    /// What stands at a location, to which no link that is refused leads.
    pub(crate) fn entry(&self, location: &str) -> Result<Entry, FolderErr> {
        let outcome = self.metadata(location);
        match outcome {
            Ok(entry) => Ok(Entry::of(&entry)),
            Err(error) if is_missing(&error) => self.need_nothing(location),
            Err(error) => Err(error.into()),
        }
    }

    // Nothing. A link that leads nowhere is an entry.
    fn need_nothing(&self, location: &str) -> Result<Entry, FolderErr> {
        match fs::symlink_metadata(&self.rt, location) {
            Err(error) if is_missing(&error) => Ok(Entry::Nothing),
            Err(error) => Err(error.into()),
            Ok(_link) => Err(FolderErr::Missing),
        }
    }

    /// That the folder at the root is another one than this, which was opened there, is a fault.
    pub(crate) fn need_same(&self, opened: &File) -> Result<(), FolderErr> {
        let root = folder_location(&self.root)?;
        let (own, found) = (opened.metadata()?, fs::metadata(&self.rt, root.as_str())?);
        if own.dev() == found.dev() && own.ino() == found.ino() {
            Ok(())
        } else {
            Err(FolderErr::Replaced)
        }
    }

    fn metadata(&self, location: &str) -> io::Result<Metadata> {
        if self.links == Links::Followed || location.as_bytes() == self.root.as_slice() {
            fs::metadata(&self.rt, location)
        } else {
            fs::symlink_metadata(&self.rt, location)
        }
    }

    /// What the system tells of the file at a location. That no file stands there is a fault.
    pub(crate) fn file(&self, location: &str) -> Result<Metadata, FolderErr> {
        let entry = self.metadata(location)?;
        Entry::of(&entry).need_file()?;
        Ok(entry)
    }

    /// That no folder stands at a location is a fault.
    pub(crate) fn need_folder(&self, location: &str) -> Result<(), FolderErr> {
        match self.entry(location)?.need_no_link()? {
            Entry::Folder => Ok(()),
            _ => Err(FolderErr::NotFolder),
        }
    }

    /// That a folder or a link stands at a location is a fault: a file can't be put there.
    pub(crate) fn need_room_for_file(&self, location: &str) -> Result<(), FolderErr> {
        match self.entry(location)?.need_no_link()? {
            Entry::Folder => Err(FolderErr::IsFolder),
            Entry::Other => Err(FolderErr::IsOther),
            _ => Ok(()),
        }
    }

    /// What stands at a path.
    pub(crate) fn look(&mut self, path: &Path) -> Result<Option<Kind>, FolderErr>
        ensures { self.new ≡ self.old }
    {
        let location = self.location(path)?;
        let entry = self.entry(location.as_str())?;
        self.found = match entry {
            Entry::File(_size) => Some(location),
            _ => None,
        };
        entry.kind()
    }

    /// Where the last look found a file at a path below the root, if it did. What was found is then used once.
    pub(crate) fn take_found(&mut self, path: &Path) -> Option<String>
        ensures { self.new ≡ self.old }
    {
        match self.found.take() {
            Some(found) if !path.is_root() && self.is_location(found.as_str(), path) => {
                Some(found)
            }
            _ => None,
        }
    }

    /// Whether a location is that of a path.
    pub(crate) fn is_location(&self, location: &str, path: &Path) -> bool {
        is_location(location, &self.root, path)
    }

    /// Reads bytes of the file at a path, from the byte `at` on, and gives how many. At or past the end, by the file's size,
    /// nothing is asked for: a file system knows a largest offset, and refuses to go past it.
    pub(crate) fn read(&mut self, path: &Path, at: u64, buf: &mut [u8]) -> Result<usize, FolderErr>
        ensures same { self.new ≡ self.old }
        ensures within { IfOk result (λ count. count ≤ length buf.new) }
    {
        let found = self.found.take();
        let mut reader = match self.reader.take() {
            Some(reader) if reader.is_next(at) && self.is_location(reader.location(), path) =>
                reader,
            _ => match self.opened(path, at, found)? {
                Some(reader) => reader,
                None => return Ok(0),
            },
        };
        let count = reader.read(buf)?;
        if count > 0 {
            self.reader = Some(reader);
        }
        Ok(count)
    }

    // The file at a path, open at its byte `at`; `None` where it ends before. At its first byte it is taken from where the last
    // look found it, which saves a look.
    fn opened(
        &mut self,
        path: &Path,
        at: u64,
        found: Option<String>,
    ) -> Result<Option<Reader<R>>, FolderErr>
        ensures { self.new ≡ self.old }
    {
        match found {
            Some(found) if at == 0 && self.is_location(found.as_str(), path) => {
                Ok(Some(Reader::open(&self.rt, found, at)?))
            }
            _ => {
                let location = self.location(path)?;
                if at >= self.file(location.as_str())?.len() {
                    return Ok(None);
                }
                Ok(Some(Reader::open(&self.rt, location, at)?))
            }
        }
    }

    /// Closes what is open for reading, and forgets where a file was found: a path may lead elsewhere from now on.
    pub(crate) fn forget(&mut self)
        ensures { self.new ≡ self.old }
    {
        self.found = None;
        self.reader = None;
    }
}

/// Nothing stands there, or a file stands in the place of a folder on the way.
pub(crate) fn is_missing(error: &io::Error) -> bool {
    matches!(error.kind(), ErrorKind::NotFound | ErrorKind::NotADirectory)
}
