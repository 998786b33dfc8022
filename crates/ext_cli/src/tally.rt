ghost use Rattle.std.specs.Prelude.{◌≡◌};
ghost use Rattle.ext_cli.specs.Tally.{after_append, after_making, after_read};

use ext_io::next_count;

/// How many files and bytes a command has read and written so far, of all its devices. Each number stands still at
/// 18,446,744,073,709,551,615.
#[derive(Clone, Copy, Default, PartialEq, Eq)]
pub(crate) struct Tally {
    pub(crate) files_read: u64,
    pub(crate) bytes_read: u64,
    pub(crate) files_written: u64,
    pub(crate) bytes_written: u64,
}

impl Tally {
    /// What it is after a read from the byte `at` on, counted from 0, that gave so many bytes. A file is counted where it is
    /// read from its beginning.
    pub(crate) fn after_read(self, at: u64, count: usize) -> Tally
        ensures { result ≡ after_read self at count }
    {
        Tally {
            files_read: match at {
                0 => next_count(self.files_read),
                _ => self.files_read,
            },
            bytes_read: self.bytes_read.saturating_add(count as u64),
            ..self
        }
    }

    /// What it is after a file was made.
    pub(crate) fn after_making(self) -> Tally
        ensures { result ≡ after_making self }
    {
        Tally {
            files_written: next_count(self.files_written),
            ..self
        }
    }

    /// What it is after so many bytes were appended to a file.
    pub(crate) fn after_append(self, count: usize) -> Tally
        ensures { result ≡ after_append self count }
    {
        Tally {
            bytes_written: self.bytes_written.saturating_add(count as u64),
            ..self
        }
    }
}
