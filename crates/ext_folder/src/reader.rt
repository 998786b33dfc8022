ghost use Rattle.std.specs.Prelude.{◌≤◌, length, IfOk};

use crate::folder_err::FolderErr;
use crate::noted::read_some;
use std::fs;
use std::fs::Files;
use std::io::{Seek, SeekFrom};

/// A file that is open for reading, the location at which it was opened, and how far it was read.
#[derive(Drop)]
pub(crate) struct Reader<R: Files> {
    location: String,
    file: R::File,
    at: u64,
}

impl<R: Files> Reader<R> {
    /// The file at a location, from its byte `at` on.
    ///
    /// # Errors
    /// The system refused.
    pub(crate) fn open(rt: &R, location: String, at: u64) -> Result<Reader<R>, FolderErr> {
        let mut file = fs::open(rt, location.as_str())?;
        if at > 0 {
            file.seek(SeekFrom::Start(at))?;
        }
        Ok(Reader { location, file, at })
    }

    /// The location at which it was opened.
    pub(crate) fn location(&self) -> &str {
        self.location.as_str()
    }

    /// Whether that byte is the one that is read next.
    pub(crate) fn is_next(&self, at: u64) -> bool {
        self.at == at
    }

    /// Reads the bytes that come next, and gives how many; none at the end.
    ///
    /// # Errors
    /// The system refused, or was interrupted too often.
    pub(crate) fn read(&mut self, buf: &mut [u8]) -> Result<usize, FolderErr>
        ensures { IfOk result (λ count. count ≤ length buf.new) }
    {
        let count = read_some(&mut self.file, buf)?;
        self.at = self.at.saturating_add(count as u64);
        Ok(count)
    }
}
