use ext_find::FindErr;
use ext_host::ShelfErr;
use ext_text::{OutOfMemory, Text};
use thiserror::Error;

/// Why there is no image of a portable service.
#[derive(Clone, Copy, Debug, PartialEq, Eq, Error)]
pub enum BodyErr {
    /// An allocation failed.
    #[error("out of memory")]
    OutOfMemory,
    /// There is no such image; a mask, and an image in a file, is none.
    #[error("there is no such image")]
    NoSuchImage,
    /// The image has no release file.
    #[error("the image has no release file")]
    NotPortable,
    /// A line of its release file is faulty.
    #[error("line {line} of the image's release file is faulty")]
    BadRelease {
        /// The first line that is, counted from 1.
        line: u64,
    },
    /// The shelf did not give its release file; never where memory ran out.
    #[error("the image's release file is not given")]
    Shelf(ShelfErr),
}

impl From<OutOfMemory> for BodyErr {
    ghost use Rattle.std.specs.Prelude.{◌≡◌};
    ghost use Rattle.ext_units.specs.declared.errors.BodyErr.TheVariants as errors;

    ghost from_gives = { λ _ e. e ≡ errors.OutOfMemory };

    fn from(_failed: OutOfMemory) -> BodyErr {
        BodyErr::OutOfMemory
    }
}

impl From<FindErr> for BodyErr {
    ghost use Rattle.std.specs.Prelude.{◌≡◌};
    ghost use Rattle.ext_units.specs.Errors.{of_release};

    ghost from_gives = { λ failed e. e ≡ of_release failed };

    fn from(failed: FindErr) -> BodyErr {
        match failed {
            FindErr::OutOfMemory => BodyErr::OutOfMemory,
            FindErr::BadHostRelease { line } => BodyErr::BadRelease { line },
            FindErr::Shelf(failed) => BodyErr::Shelf(failed),
        }
    }
}

/// Why an image has no units.
#[derive(Debug, Drop, Error)]
pub enum UnitsErr {
    /// An allocation failed.
    #[error("out of memory")]
    OutOfMemory,
    /// The image does not allow a prefix.
    #[error("the image does not allow a prefix")]
    PrefixForbidden {
        /// The first prefix that it does not allow, which may be empty.
        prefix: Text,
    },
    /// No unit has one of the prefixes.
    #[error("no unit has one of the prefixes")]
    NoUnits,
}

impl From<OutOfMemory> for UnitsErr {
    ghost use Rattle.std.specs.Prelude.{◌≡◌};
    ghost use Rattle.ext_units.specs.declared.errors.UnitsErr.TheVariants as errors;

    ghost from_gives = { λ _ e. e ≡ errors.OutOfMemory };

    fn from(_failed: OutOfMemory) -> UnitsErr {
        UnitsErr::OutOfMemory
    }
}

/// Why nothing is told of a portable service.
#[derive(Debug, Drop, Error)]
pub enum InspectErr {
    /// An allocation failed.
    #[error("out of memory")]
    OutOfMemory,
    /// There is no such image; a mask, and an image in a file, is none.
    #[error("there is no such image")]
    NoSuchImage,
    /// The shelf did not give its release file; never where memory ran out.
    #[error("the image's release file is not given")]
    Shelf(ShelfErr),
    /// The image has no release file.
    #[error("the image has no release file")]
    NotPortable,
    /// A line of its release file is faulty.
    #[error("line {line} of the image's release file is faulty")]
    BadRelease {
        /// The first line that is, counted from 1.
        line: u64,
    },
    /// The image does not allow a prefix.
    #[error("the image does not allow a prefix")]
    PrefixForbidden {
        /// The first prefix that it does not allow, which may be empty.
        prefix: Text,
    },
    /// No unit has one of the prefixes.
    #[error("no unit has one of the prefixes")]
    NoUnits,
}

impl From<OutOfMemory> for InspectErr {
    ghost use Rattle.std.specs.Prelude.{◌≡◌};
    ghost use Rattle.ext_units.specs.declared.errors.InspectErr.TheVariants as errors;

    ghost from_gives = { λ _ e. e ≡ errors.OutOfMemory };

    fn from(_failed: OutOfMemory) -> InspectErr {
        InspectErr::OutOfMemory
    }
}

impl From<BodyErr> for InspectErr {
    ghost use Rattle.std.specs.Prelude.{◌≡◌};
    ghost use Rattle.ext_units.specs.Errors.{of_body};

    ghost from_gives = { λ failed e. e ≡ of_body failed };

    fn from(failed: BodyErr) -> InspectErr {
        match failed {
            BodyErr::OutOfMemory => InspectErr::OutOfMemory,
            BodyErr::NoSuchImage => InspectErr::NoSuchImage,
            BodyErr::NotPortable => InspectErr::NotPortable,
            BodyErr::BadRelease { line } => InspectErr::BadRelease { line },
            BodyErr::Shelf(failed) => InspectErr::Shelf(failed),
        }
    }
}

impl From<UnitsErr> for InspectErr {
    ghost use Rattle.std.specs.Prelude.{◌≡◌};
    ghost use Rattle.ext_units.specs.Errors.{of_units};

    ghost from_gives = { λ failed e. e ≡ of_units failed };

    fn from(failed: UnitsErr) -> InspectErr {
        match failed {
            UnitsErr::OutOfMemory => InspectErr::OutOfMemory,
            UnitsErr::PrefixForbidden { prefix } => InspectErr::PrefixForbidden { prefix },
            UnitsErr::NoUnits => InspectErr::NoUnits,
        }
    }
}
