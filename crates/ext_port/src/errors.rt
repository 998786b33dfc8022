use ext_host::ShelfErr;
use ext_text::{OutOfMemory, Path, Text, Which};
use ext_units::{BodyErr, UnitsErr};
use thiserror::Error;

/// Why nothing is attached.
#[derive(Debug, Drop, Error)]
pub enum PortErr {
    /// An allocation failed.
    #[error("out of memory")]
    OutOfMemory,
    /// There is no such image; a mask, and an image in a file, is none.
    #[error("there is no such image")]
    NoSuchImage,
    /// An attachment has the name of the image.
    #[error("the image is attached already")]
    AlreadyAttached,
    /// No attachment has a name with the first part of that of the image.
    #[error("no such image is attached")]
    NotAttached,
    /// The image has no release file.
    #[error("the image has no release file")]
    NotPortable,
    /// A line of its release file is faulty.
    #[error("line {line} of the image's release file is faulty")]
    BadRelease {
        /// The first line that is, counted from 1.
        line: u64,
    },
    /// The shelf did not give the image's release file; never where memory ran out.
    #[error("the image's release file is not given")]
    Shelf(ShelfErr),
    /// The image does not allow a prefix.
    #[error("the image does not allow a prefix")]
    PrefixForbidden {
        /// The first prefix that it does not allow, which may be empty.
        prefix: Text,
    },
    /// No unit has one of the prefixes.
    #[error("no unit has one of the prefixes")]
    NoUnits,
    /// There is no profile of the name.
    #[error("there is no such profile")]
    NoProfile,
    /// A path that is written or cut is in, at or above a hierarchy of a merged class.
    #[error("a path may not be written")]
    ReadOnly {
        /// The least such path.
        path: Path,
    },
    /// Something stands at a path that is added.
    #[error("an entry stands at a path that is added")]
    UnitExists {
        /// The least such path.
        path: Path,
    },
    /// Something that is no directory stands above a path that is added.
    #[error("an entry above a path that is added is no directory")]
    NotDirectory {
        /// The least such path.
        path: Path,
    },
    /// A limit would be passed.
    #[error("a limit is passed")]
    Limit {
        /// The first limit that would be passed, of `Path`, `Entries`, `File` and `Bytes`.
        which: Which,
    },
}

impl From<OutOfMemory> for PortErr {
    ghost use Rattle.std.specs.Prelude.{◌≡◌};
    ghost use Rattle.ext_port.specs.declared.errors.PortErr.TheVariants as errors;

    ghost from_gives = { λ _ e. e ≡ errors.OutOfMemory };

    fn from(_failed: OutOfMemory) -> PortErr {
        PortErr::OutOfMemory
    }
}

impl From<BodyErr> for PortErr {
    ghost use Rattle.std.specs.Prelude.{◌≡◌};
    ghost use Rattle.ext_port.specs.Errors.{port_err_of_body};

    ghost from_gives = { λ failed e. e ≡ port_err_of_body failed };

    fn from(failed: BodyErr) -> PortErr {
        match failed {
            BodyErr::OutOfMemory => PortErr::OutOfMemory,
            BodyErr::NoSuchImage => PortErr::NoSuchImage,
            BodyErr::NotPortable => PortErr::NotPortable,
            BodyErr::BadRelease { line } => PortErr::BadRelease { line },
            BodyErr::Shelf(failed) => PortErr::Shelf(failed),
        }
    }
}

impl From<UnitsErr> for PortErr {
    ghost use Rattle.std.specs.Prelude.{◌≡◌};
    ghost use Rattle.ext_port.specs.Errors.{port_err_of_units};

    ghost from_gives = { λ failed e. e ≡ port_err_of_units failed };

    fn from(failed: UnitsErr) -> PortErr {
        match failed {
            UnitsErr::OutOfMemory => PortErr::OutOfMemory,
            UnitsErr::PrefixForbidden { prefix } => PortErr::PrefixForbidden { prefix },
            UnitsErr::NoUnits => PortErr::NoUnits,
        }
    }
}
