use std::fs::{DirBuilder, OpenOptions};
use std::os::unix::fs::{DirBuilderExt, OpenOptionsExt};

/// Who may do what with the files and folders that are made.
#[derive(Clone, Copy, PartialEq, Eq)]
pub(crate) enum Modes {
    /// What the process's umask leaves of 666 and 777.
    Usual,
    /// Their owner alone.
    Private,
}

impl Modes {
    /// How a file is opened that is new.
    pub(crate) fn of_file(self) -> OpenOptions {
        let mut how = OpenOptions::new();
        if self == Modes::Private {
            how.mode(0o600);
        }
        how
    }

    /// How a folder is made.
    pub(crate) fn of_folder(self) -> DirBuilder {
        let mut how = DirBuilder::new();
        if self == Modes::Private {
            how.mode(0o700);
        }
        how
    }
}
