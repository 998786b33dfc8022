use ext_text::OutOfMemory;
use thiserror::Error;

/// Why a folder was not listed.
#[derive(Clone, Copy, Debug, PartialEq, Eq, Error)]
pub enum ListErr {
    /// The disk failed.
    #[error("the disk failed")]
    Failed,
    /// Out of memory.
    #[error("out of memory")]
    OutOfMemory,
}

impl From<OutOfMemory> for ListErr {
    ghost use Rattle.std.specs.Prelude.{◌≡◌};
    ghost use Rattle.ext_disk.specs.declared.list_err.ListErr.TheVariants as errors;

    ghost from_gives = { λ _ e. e ≡ errors.OutOfMemory };

    fn from(_refused: OutOfMemory) -> ListErr {
        ListErr::OutOfMemory
    }
}

impl From<ext_io::Failed> for ListErr {
    ghost use Rattle.std.specs.Prelude.{◌≡◌};
    ghost use Rattle.ext_disk.specs.declared.list_err.ListErr.TheVariants as errors;

    ghost from_gives = { λ _ e. e ≡ errors.Failed };

    fn from(_failed: ext_io::Failed) -> ListErr {
        ListErr::Failed
    }
}
