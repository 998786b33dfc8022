use ext_find::FindErr;
use ext_host::ShelfErr;
use ext_layer::LayerErr;
use ext_text::{OutOfMemory, Which};
use thiserror::Error;

/// Why a host's extensions are not surveyed or merged.
#[derive(Clone, Copy, Debug, PartialEq, Eq, Error)]
pub enum ViewErr {
    /// An allocation failed.
    #[error("out of memory")]
    OutOfMemory,
    /// The class is merged already.
    #[error("extensions are merged already")]
    Merged,
    /// The host has no release file.
    #[error("the host has no release file")]
    NoHostRelease,
    /// A line of the host's release file is faulty.
    #[error("line {line} of the host's release file is faulty")]
    BadHostRelease {
        /// The first line that is, counted from 1.
        line: u64,
    },
    /// The shelf did not give the bytes of a release file; never where memory ran out.
    #[error("a release file is not given")]
    Shelf(ShelfErr),
    /// The merged host would pass a limit.
    #[error("a limit is passed")]
    Limit {
        /// The first limit that would be passed, of `Entries` and `Bytes`.
        which: Which,
    },
}

impl From<OutOfMemory> for ViewErr {
    ghost use Rattle.std.specs.Prelude.{◌≡◌};
    ghost use Rattle.ext_view.specs.declared.errors.ViewErr.TheVariants as errors;

    ghost from_gives = { λ _ e. e ≡ errors.OutOfMemory };

    fn from(_failed: OutOfMemory) -> ViewErr {
        ViewErr::OutOfMemory
    }
}

impl From<ShelfErr> for ViewErr {
    ghost use Rattle.std.specs.Prelude.{◌≡◌};
    ghost use Rattle.ext_view.specs.Errors.{view_err_of_shelf};

    ghost from_gives = { λ failed e. e ≡ view_err_of_shelf failed };

    fn from(failed: ShelfErr) -> ViewErr {
        match failed {
            ShelfErr::OutOfMemory => ViewErr::OutOfMemory,
            ShelfErr::Fault => ViewErr::Shelf(failed),
            ShelfErr::Damaged(_) => ViewErr::Shelf(failed),
        }
    }
}

impl From<FindErr> for ViewErr {
    ghost use Rattle.std.specs.Prelude.{◌≡◌};
    ghost use Rattle.ext_view.specs.Errors.{of_find};

    ghost from_gives = { λ failed e. e ≡ of_find failed };

    fn from(failed: FindErr) -> ViewErr {
        match failed {
            FindErr::OutOfMemory => ViewErr::OutOfMemory,
            FindErr::BadHostRelease { line } => ViewErr::BadHostRelease { line },
            FindErr::Shelf(failed) => ViewErr::Shelf(failed),
        }
    }
}

impl From<LayerErr> for ViewErr {
    ghost use Rattle.std.specs.Prelude.{◌≡◌};
    ghost use Rattle.ext_view.specs.Errors.{of_layer};

    ghost from_gives = { λ failed e. e ≡ of_layer failed };

    fn from(failed: LayerErr) -> ViewErr {
        match failed {
            LayerErr::OutOfMemory => ViewErr::OutOfMemory,
            LayerErr::Limit => ViewErr::Limit {
                which: Which::Entries,
            },
        }
    }
}
