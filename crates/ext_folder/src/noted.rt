// Reads and writes through the adapters of ext_io, which tell that one failed and not why.
ghost use Rattle.std.specs.Prelude.{◌≤◌, length, IfOk};

use crate::folder_err::FolderErr;
use ext_io::{StdSink, read_again, write_all};
use std::io;
use std::io::{Read, Write};

/// A reader or a writer, and why its last call that failed did.
#[derive(Drop)]
struct Noted<'a, F> {
    inner: &'a mut F,
    error: Option<io::Error>,
}

impl<'a, F> Noted<'a, F> {
    fn new(inner: &'a mut F) -> Noted<'a, F> {
        Noted { inner, error: None }
    }

    // What an error is to the caller, once it is kept here.
    fn note(&mut self, error: io::Error) -> io::Error {
        let same = io::Error::from(error.kind());
        self.error = Some(error);
        same
    }

    // Why the last call that failed did; where none did, the device moved no byte.
    fn into_error(self) -> FolderErr {
        match self.error {
            Some(error) => FolderErr::Refused(error),
            None => FolderErr::Stuck,
        }
    }
}

impl<F: Read> Read for Noted<'_, F> {
    fn read(&mut self, buf: &mut [u8]) -> io::Result<usize> {
        match self.inner.read(buf) {
            Ok(count) => Ok(count),
            Err(error) => Err(self.note(error)),
        }
    }
}

impl<F: Write> Write for Noted<'_, F> {
    fn write(&mut self, buf: &[u8]) -> io::Result<usize> {
        match self.inner.write(buf) {
            Ok(count) => Ok(count),
            Err(error) => Err(self.note(error)),
        }
    }

    fn flush(&mut self) -> io::Result<()> {
        match self.inner.flush() {
            Ok(()) => Ok(()),
            Err(error) => Err(self.note(error)),
        }
    }
}

/// Reads once, and gives how many bytes came; none at the end.
///
/// # Errors
/// The system refused, or interrupted too often.
pub(crate) fn read_some<F: Read>(file: &mut F, buf: &mut [u8]) -> Result<usize, FolderErr>
    ensures { IfOk result (λ count. count ≤ length buf.new) }
{
    let mut noted = Noted::new(file);
    match read_again(&mut noted, buf) {
        Ok(count) => Ok(count),
        Err(_failed) => Err(noted.into_error()),
    }
}

/// Writes all the bytes.
///
/// # Errors
/// The system refused, interrupted too often or took nothing. Some of the bytes may have been written.
pub(crate) fn write_whole<F: Write>(file: &mut F, bytes: &[u8]) -> Result<(), FolderErr> {
    let mut noted = Noted::new(file);
    let outcome = write_all(&mut StdSink::new(&mut noted), bytes);
    match outcome {
        Ok(()) => Ok(()),
        Err(_failed) => Err(noted.into_error()),
    }
}
