use ext_depot::DepotErr;
use ext_text::{OutOfMemory, Path};
use thiserror::Error;

/// Why it is not known what sources offer.
#[derive(Debug, Drop, PartialEq, Eq, Error)]
pub enum OffersErr {
    /// An allocation failed.
    #[error("out of memory")]
    OutOfMemory,
    /// The depot had a fault.
    #[error("depot fault")]
    Fault,
    /// The depot has no manifest of a source.
    #[error("a manifest is not in the depot")]
    NotInDepot {
        /// Where the manifest was looked for, a path of the depot.
        path: Path,
    },
    /// A manifest has more than 67,108,864 bytes.
    #[error("a manifest of more than 67,108,864 bytes")]
    TooLong,
    /// A manifest is faulty.
    #[error("line {line} of a manifest is faulty")]
    BadManifest {
        /// The manifest, a path of the depot.
        path: Path,
        /// Its first faulty line, counted from 1.
        line: u64,
    },
}

impl From<OutOfMemory> for OffersErr {
    ghost use Rattle.std.specs.Prelude.{◌≡◌};
    ghost use Rattle.ext_available.specs.declared.offers_err.OffersErr.TheVariants as errors;

    ghost from_gives = { λ _ e. e ≡ errors.OutOfMemory };

    fn from(_failed: OutOfMemory) -> OffersErr {
        OffersErr::OutOfMemory
    }
}

impl From<DepotErr> for OffersErr {
    ghost use Rattle.std.specs.Prelude.{◌≡◌};
    ghost use Rattle.ext_available.specs.Reading.{of_depot_err};

    ghost from_gives = { λ failed e. e ≡ of_depot_err failed };

    fn from(failed: DepotErr) -> OffersErr {
        match failed {
            DepotErr::Fault => OffersErr::Fault,
            DepotErr::OutOfMemory => OffersErr::OutOfMemory,
        }
    }
}
