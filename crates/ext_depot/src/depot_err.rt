use ext_io::Failed;
use ext_text::OutOfMemory;
use thiserror::Error;

/// Why a file of the depot was not read.
#[derive(Clone, Copy, Debug, PartialEq, Eq, Error)]
pub enum DepotErr {
    /// The depot had a fault.
    #[error("depot fault")]
    Fault,
    /// An allocation failed.
    #[error("out of memory")]
    OutOfMemory,
}

impl From<OutOfMemory> for DepotErr {
    ghost use Rattle.std.specs.Prelude.{◌≡◌};
    ghost use Rattle.ext_depot.specs.declared.depot_err.DepotErr.TheVariants as errors;

    ghost from_gives = { λ _ e. e ≡ errors.OutOfMemory };

    fn from(_failed: OutOfMemory) -> DepotErr {
        DepotErr::OutOfMemory
    }
}

impl From<Failed> for DepotErr {
    ghost use Rattle.std.specs.Prelude.{◌≡◌};
    ghost use Rattle.ext_depot.specs.declared.depot_err.DepotErr.TheVariants as errors;

    ghost from_gives = { λ _ e. e ≡ errors.Fault };

    fn from(_failed: Failed) -> DepotErr {
        DepotErr::Fault
    }
}
