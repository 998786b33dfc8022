ghost use Rattle.std.specs.Prelude.{◌≡◌, Ok, IsErr, MatchResult};
ghost use Rattle.ext_lines.specs.declared.memory.OutOfMemory.{OutOfMemory};

use std::alloc::{AllocError, AllocFailed};
use thiserror::Error;

/// An allocation failed. It is the one outcome that no contract ties to a cause.
#[derive(Clone, Copy, Debug, PartialEq, Eq, Error)]
#[error("out of memory")]
pub struct OutOfMemory;

impl From<AllocError> for OutOfMemory {
    fn from(_failed: AllocError) -> OutOfMemory {
        OutOfMemory
    }
}

impl<T: Drop> From<AllocFailed<T>> for OutOfMemory {
    fn from(_failed: AllocFailed<T>) -> OutOfMemory {
        OutOfMemory
    }
}

/// The outcome of a call of std that allocates, with either of std's two errors turned into `OutOfMemory`.
///
/// # Errors
/// `OutOfMemory` exactly where the allocation failed.
pub fn allocated<T, E>(outcome: Result<T, E>) -> Result<T, OutOfMemory>
where
    OutOfMemory: From<E>,
    ensures { MatchResult result (λ value. outcome ≡ Ok value) (λ _. IsErr outcome) }
{
    match outcome {
        Ok(value) => Ok(value),
        Err(failed) => Err(OutOfMemory::from(failed)),
    }
}
