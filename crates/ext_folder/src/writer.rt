use crate::folder_err::FolderErr;
use crate::location::is_at_or_below;
use crate::modes::Modes;
use crate::noted::write_whole;
use std::fs::{Files, Metadata, OpenFile, OpenOptions};
use std::io;
use std::os::unix::fs::MetadataExt;

/// A file that is open for writing at its end, and the location at which it was opened.
///
/// Linux tells a write-back that failed to the handles that were open by then. So the file that was written stays open,
/// and its sync is asked of the handle that wrote.
#[derive(Drop)]
pub(crate) struct Writer<R: Files> {
    location: String,
    file: R::File,
    // Whether nothing was renamed or removed since it was opened.
    sure: bool,
}

impl<R: Files> Writer<R> {
    /// The file at a location.
    ///
    /// # Errors
    /// The system refused.
    pub(crate) fn open(rt: &R, location: String) -> Result<Writer<R>, FolderErr> {
        let mut how = OpenOptions::new();
        how.append(true);
        Writer::with(rt, location, &how)
    }

    /// A new file, at a location where nothing stands.
    ///
    /// # Errors
    /// The system refused, and so it does where anything stands there, a link too.
    pub(crate) fn make(rt: &R, location: String, modes: Modes) -> Result<Writer<R>, FolderErr> {
        let mut how = modes.of_file();
        how.append(true).create_new(true);
        Writer::with(rt, location, &how)
    }

    fn with(rt: &R, location: String, how: &OpenOptions) -> Result<Writer<R>, FolderErr> {
        let file = how.open(rt, location.as_str())?;
        Ok(Writer {
            location,
            file,
            sure: true,
        })
    }

    /// The location at which it was opened.
    pub(crate) fn location(&self) -> &str {
        self.location.as_str()
    }

    /// Whether its location leads to it for sure.
    pub(crate) fn is_sure(&self) -> bool {
        self.sure
    }

    /// The same file, to which its location may lead no more.
    pub(crate) fn unsure(self) -> Writer<R> {
        Writer {
            sure: false,
            ..self
        }
    }

    /// Whether this is the file that was found: opening it anew would open the same.
    ///
    /// # Errors
    /// The system refused.
    pub(crate) fn is_same(&self, found: &Metadata) -> Result<bool, FolderErr> {
        let own = self.file.metadata()?;
        Ok(own.dev() == found.dev() && own.ino() == found.ino())
    }

    /// Whether it was opened at the location or below it.
    pub(crate) fn is_at_or_below(&self, location: &str) -> bool {
        is_at_or_below(self.location.as_str(), location)
    }

    /// Writes all the bytes at the end.
    ///
    /// # Errors
    /// The system refused, was interrupted too often or took nothing. Some of the bytes may have been written.
    pub(crate) fn append(&mut self, bytes: &[u8]) -> Result<(), FolderErr> {
        write_whole(&mut self.file, bytes)
    }

    /// Waits until the file's bytes and its length are on the disk, and closes it.
    ///
    /// # Errors
    /// The system refused, or could not write something back.
    pub(crate) fn sync(self) -> io::Result<()> {
        self.file.sync_all()
    }
}
