use ext_io::Failed;
use ext_published::{ManifestErr, PlacesErr};
use ext_store_files::ReadErr;
use ext_text::{OutOfMemory, Path};

/// Why what is asked may not be published, or is not known to be.
#[derive(Drop)]
pub(crate) enum LookErr {
    /// Out of memory.
    OutOfMemory,
    /// The disk of the depot failed.
    OutFault,
    /// A path passes the limits of a path.
    LimitPath,
    /// Something of the wrong kind stands in the depot's folder.
    OutKind {
        /// The least such path.
        path: Path,
    },
    /// The tree text, the old or the new manifest is too long.
    LimitText,
    /// The manifest is none.
    OutManifest {
        /// Its first faulty line, counted from 1.
        line: u64,
    },
    /// The manifest lists the name, or that of its tree text.
    Listed,
}

impl From<OutOfMemory> for LookErr {
    ghost use Rattle.std.specs.Prelude.{◌≡◌};
    ghost use Rattle.ext_publish.specs.declared.look_err.LookErr.TheVariants as errors;

    ghost from_gives = { λ _ e. e ≡ errors.OutOfMemory };

    fn from(_refused: OutOfMemory) -> LookErr {
        LookErr::OutOfMemory
    }
}

impl From<Failed> for LookErr {
    ghost use Rattle.std.specs.Prelude.{◌≡◌};
    ghost use Rattle.ext_publish.specs.declared.look_err.LookErr.TheVariants as errors;

    ghost from_gives = { λ _ e. e ≡ errors.OutFault };

    fn from(_failed: Failed) -> LookErr {
        LookErr::OutFault
    }
}

impl From<PlacesErr> for LookErr {
    ghost use Rattle.std.specs.Prelude.{◌≡◌};
    ghost use Rattle.ext_publish.specs.Looking.{look_err_of_places};

    ghost from_gives = { λ e f. f ≡ look_err_of_places e };

    fn from(refused: PlacesErr) -> LookErr {
        match refused {
            PlacesErr::OutOfMemory => LookErr::OutOfMemory,
            PlacesErr::Limit => LookErr::LimitPath,
        }
    }
}

impl From<ReadErr> for LookErr {
    ghost use Rattle.std.specs.Prelude.{◌≡◌};
    ghost use Rattle.ext_publish.specs.Looking.{look_err_of_read};

    ghost from_gives = { λ e f. f ≡ look_err_of_read e };

    fn from(unread: ReadErr) -> LookErr {
        match unread {
            ReadErr::DiskFault => LookErr::OutFault,
            ReadErr::OutOfMemory => LookErr::OutOfMemory,
        }
    }
}

impl From<ManifestErr> for LookErr {
    ghost use Rattle.std.specs.Prelude.{◌≡◌};
    ghost use Rattle.ext_publish.specs.Looking.{look_err_of_manifest};

    ghost from_gives = { λ e f. f ≡ look_err_of_manifest e };

    fn from(refused: ManifestErr) -> LookErr {
        match refused {
            ManifestErr::OutOfMemory => LookErr::OutOfMemory,
            ManifestErr::Faulty { line } => LookErr::OutManifest { line },
            ManifestErr::Listed => LookErr::Listed,
        }
    }
}
