use ext_text::{OutOfMemory, Path};
use thiserror::Error;

/// Why nothing is detached.
#[derive(Debug, Drop, Error)]
pub enum DetachErr {
    /// An allocation failed.
    #[error("out of memory")]
    OutOfMemory,
    /// No attachment has this name.
    #[error("no such image is attached")]
    NotAttached,
    /// A path that the attachment added is in, at or above a hierarchy of a merged class.
    #[error("a path may not be written")]
    ReadOnly {
        /// The least such path.
        path: Path,
    },
}

impl From<OutOfMemory> for DetachErr {
    ghost use Rattle.std.specs.Prelude.{◌≡◌};
    ghost use Rattle.ext_attached.specs.declared.errors.DetachErr.TheVariants as errors;

    ghost from_gives = { λ _ e. e ≡ errors.OutOfMemory };

    fn from(_failed: OutOfMemory) -> DetachErr {
        DetachErr::OutOfMemory
    }
}
