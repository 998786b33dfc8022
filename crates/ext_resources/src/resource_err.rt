use ext_depot::DepotErr;
use ext_text::{OutOfMemory, Path};
use ext_tree::Stamp;
use thiserror::Error;

/// Why there are no resources. Each path is one of the depot: that of a file, or of the text of a directory's tree.
#[derive(Debug, Drop, PartialEq, Eq, Error)]
pub enum ResourceErr {
    /// An allocation failed.
    #[error("out of memory")]
    OutOfMemory,
    /// The depot had a fault.
    #[error("depot fault")]
    Fault,
    /// The depot has no file where a resource is listed.
    #[error("a resource is not in the depot")]
    NotInDepot {
        /// Where it was looked for.
        path: Path,
    },
    /// A file has more than 1,073,741,824 bytes.
    #[error("a file of more than 1,073,741,824 bytes")]
    FileTooLarge {
        /// The file.
        path: Path,
    },
    /// The text of a directory's tree has more than 67,108,864 bytes.
    #[error("a tree text of more than 67,108,864 bytes")]
    TextTooLong {
        /// The text.
        path: Path,
    },
    /// The text of a directory's tree has another digest than the listed one.
    #[error("a tree text has another digest than the listed one")]
    Mismatch {
        /// The text.
        path: Path,
        /// The listed digest, with the size that was read.
        listed: Stamp,
        /// The stamp of what was read.
        found: Stamp,
    },
    /// The text of a directory's tree is none.
    #[error("line {line} of a tree text is faulty")]
    BadTree {
        /// The text.
        path: Path,
        /// Its first faulty line, counted from 1.
        line: u64,
    },
}

impl From<OutOfMemory> for ResourceErr {
    ghost use Rattle.std.specs.Prelude.{◌≡◌};
    ghost use Rattle.ext_resources.specs.declared.resource_err.ResourceErr.TheVariants as errors;

    ghost from_gives = { λ _ e. e ≡ errors.OutOfMemory };

    fn from(_failed: OutOfMemory) -> ResourceErr {
        ResourceErr::OutOfMemory
    }
}

impl From<DepotErr> for ResourceErr {
    ghost use Rattle.std.specs.Prelude.{◌≡◌};
    ghost use Rattle.ext_resources.specs.Told.{reason_of};

    ghost from_gives = { λ failed e. e ≡ reason_of failed };

    fn from(failed: DepotErr) -> ResourceErr {
        match failed {
            DepotErr::Fault => ResourceErr::Fault,
            DepotErr::OutOfMemory => ResourceErr::OutOfMemory,
        }
    }
}
