use ext_text::OutOfMemory;
use std::alloc::{AllocError, AllocFailed};
use thiserror::Error;

/// Why a statement was not carried out.
#[derive(Clone, Copy, Debug, PartialEq, Eq, Error)]
pub enum Trouble {
    /// An allocation failed.
    #[error("out of memory")]
    OutOfMemory,
    /// The case can't be read; it says why. That is a failure of the case.
    #[error("{0}")]
    Unreadable(&'static str),
}

impl From<OutOfMemory> for Trouble {
    fn from(_failed: OutOfMemory) -> Trouble {
        Trouble::OutOfMemory
    }
}

impl From<AllocError> for Trouble {
    fn from(_failed: AllocError) -> Trouble {
        Trouble::OutOfMemory
    }
}

impl<T: Drop> From<AllocFailed<T>> for Trouble {
    fn from(_failed: AllocFailed<T>) -> Trouble {
        Trouble::OutOfMemory
    }
}
