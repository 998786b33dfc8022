use ext_text::OutOfMemory;
use thiserror::Error;

/// Why a host does not go back to a mark, or does not drop one.
#[derive(Debug, Drop, Error)]
pub enum HistoryErr {
    /// An allocation failed.
    #[error("out of memory")]
    OutOfMemory,
    /// The host has no such mark.
    #[error("there is no mark of generation {generation}")]
    NoMark {
        /// The number that was asked for.
        generation: u32,
    },
}

impl From<OutOfMemory> for HistoryErr {
    ghost use Rattle.std.specs.Prelude.{◌≡◌};
    ghost use Rattle.ext_history.specs.declared.history_err.HistoryErr.TheVariants as errors;

    ghost from_gives = { λ _ e. e ≡ errors.OutOfMemory };

    fn from(_failed: OutOfMemory) -> HistoryErr {
        HistoryErr::OutOfMemory
    }
}
