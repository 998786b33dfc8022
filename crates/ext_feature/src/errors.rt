use ext_find::FindErr;
use ext_host::ShelfErr;
use ext_text::{Name, OutOfMemory};
use ext_transfer::{FeatureFault, TransferFault};
use thiserror::Error;

/// Why the features of a component are not given.
#[derive(Debug, Drop, Error)]
pub enum FeaturesErr {
    /// An allocation failed.
    #[error("out of memory")]
    OutOfMemory,
    /// A feature file is faulty.
    #[error("line {line} of a feature file is faulty: {why}")]
    BadFeature {
        /// The name of the file.
        file: Name,
        /// The line of its first fault, counted from 1.
        line: u64,
        /// What is wrong there.
        why: FeatureFault,
    },
    /// The shelf did not give the bytes of a feature file; never where memory ran out.
    #[error("a feature file is not given")]
    Shelf(ShelfErr),
}

impl From<OutOfMemory> for FeaturesErr {
    ghost use Rattle.std.specs.Prelude.{◌≡◌};
    ghost use Rattle.ext_feature.specs.declared.errors.FeaturesErr.TheVariants as errors;

    ghost from_gives = { λ _ e. e ≡ errors.OutOfMemory };

    fn from(_failed: OutOfMemory) -> FeaturesErr {
        FeaturesErr::OutOfMemory
    }
}

impl From<ShelfErr> for FeaturesErr {
    ghost use Rattle.std.specs.Prelude.{◌≡◌};
    ghost use Rattle.ext_feature.specs.Errors.{features_err_of_shelf};

    ghost from_gives = { λ failed e. e ≡ features_err_of_shelf failed };

    fn from(failed: ShelfErr) -> FeaturesErr {
        match failed {
            ShelfErr::OutOfMemory => FeaturesErr::OutOfMemory,
            ShelfErr::Fault => FeaturesErr::Shelf(failed),
            ShelfErr::Damaged(_) => FeaturesErr::Shelf(failed),
        }
    }
}

/// Why a component has no transfer that is on.
#[derive(Debug, Drop, Error)]
pub enum ActiveErr {
    /// An allocation failed.
    #[error("out of memory")]
    OutOfMemory,
    /// A feature file is faulty.
    #[error("line {line} of a feature file is faulty: {why}")]
    BadFeature {
        /// The name of the file.
        file: Name,
        /// The line of its first fault, counted from 1.
        line: u64,
        /// What is wrong there.
        why: FeatureFault,
    },
    /// A line of the host's release file is faulty.
    #[error("line {line} of the host's release file is faulty")]
    BadHostRelease {
        /// The first line that is, counted from 1.
        line: u64,
    },
    /// The component has no transfer file.
    #[error("there is no transfer file")]
    NoTransfers,
    /// A transfer file is faulty.
    #[error("line {line} of a transfer file is faulty: {why}")]
    BadTransfer {
        /// The name of the file.
        file: Name,
        /// The line of its first fault, counted from 1; 0 where a key is absent.
        line: u64,
        /// What is wrong there.
        why: TransferFault,
    },
    /// There are transfers, and none is on.
    #[error("no transfer is on")]
    NoneOn,
    /// The shelf did not give the bytes of a file; never where memory ran out.
    #[error("a file of the update is not given")]
    Shelf(ShelfErr),
}

impl From<OutOfMemory> for ActiveErr {
    ghost use Rattle.std.specs.Prelude.{◌≡◌};
    ghost use Rattle.ext_feature.specs.declared.errors.ActiveErr.TheVariants as errors;

    ghost from_gives = { λ _ e. e ≡ errors.OutOfMemory };

    fn from(_failed: OutOfMemory) -> ActiveErr {
        ActiveErr::OutOfMemory
    }
}

impl From<ShelfErr> for ActiveErr {
    ghost use Rattle.std.specs.Prelude.{◌≡◌};
    ghost use Rattle.ext_feature.specs.Errors.{active_err_of_shelf};

    ghost from_gives = { λ failed e. e ≡ active_err_of_shelf failed };

    fn from(failed: ShelfErr) -> ActiveErr {
        match failed {
            ShelfErr::OutOfMemory => ActiveErr::OutOfMemory,
            ShelfErr::Fault => ActiveErr::Shelf(failed),
            ShelfErr::Damaged(_) => ActiveErr::Shelf(failed),
        }
    }
}

impl From<FeaturesErr> for ActiveErr {
    ghost use Rattle.std.specs.Prelude.{◌≡◌};
    ghost use Rattle.ext_feature.specs.Errors.{of_features};

    ghost from_gives = { λ failed e. e ≡ of_features failed };

    fn from(failed: FeaturesErr) -> ActiveErr {
        match failed {
            FeaturesErr::OutOfMemory => ActiveErr::OutOfMemory,
            FeaturesErr::BadFeature { file, line, why } => {
                ActiveErr::BadFeature { file, line, why }
            }
            FeaturesErr::Shelf(failed) => ActiveErr::Shelf(failed),
        }
    }
}

impl From<FindErr> for ActiveErr {
    ghost use Rattle.std.specs.Prelude.{◌≡◌};
    ghost use Rattle.ext_feature.specs.Errors.{of_host_release};

    ghost from_gives = { λ failed e. e ≡ of_host_release failed };

    fn from(failed: FindErr) -> ActiveErr {
        match failed {
            FindErr::OutOfMemory => ActiveErr::OutOfMemory,
            FindErr::BadHostRelease { line } => ActiveErr::BadHostRelease { line },
            FindErr::Shelf(failed) => ActiveErr::Shelf(failed),
        }
    }
}
