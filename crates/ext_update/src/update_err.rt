use ext_text::OutOfMemory;
use thiserror::Error;

/// Why nothing was planned.
#[derive(Clone, Copy, Debug, PartialEq, Eq, Error)]
pub enum UpdateErr {
    /// The depot had a fault.
    #[error("depot fault")]
    DepotFault,
    /// An allocation failed.
    #[error("out of memory")]
    OutOfMemory,
}

impl From<OutOfMemory> for UpdateErr {
    ghost use Rattle.std.specs.Prelude.{◌≡◌};
    ghost use Rattle.ext_update.specs.declared.update_err.UpdateErr.TheVariants as errors;

    ghost from_gives = { λ _ e. e ≡ errors.OutOfMemory };

    fn from(_failed: OutOfMemory) -> UpdateErr {
        UpdateErr::OutOfMemory
    }
}
