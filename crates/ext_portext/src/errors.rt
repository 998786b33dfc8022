use ext_find::BreakWhy;
use ext_host::ShelfErr;
use ext_layer::LayerErr;
use ext_match::Verdict;
use ext_port::PortErr;
use ext_text::{OutOfMemory, Which};
use thiserror::Error;

/// Why nothing is attached with extensions.
#[derive(Debug, Drop, Error)]
pub enum PortExtErr {
    /// An allocation failed.
    #[error("out of memory")]
    OutOfMemory,
    /// What keeps the image from being attached, whatever its extensions; or that the shelf did not give the release file of one.
    #[error("the image is not attached")]
    Port(PortErr),
    /// There is no such extension; a mask, and an image in a file, is none.
    #[error("there is no extension {at}")]
    NoExtension {
        /// Its place in the list, counted from 0.
        at: u64,
    },
    /// An extension does not fit.
    #[error("extension {at} does not fit")]
    Extension {
        /// Its place in the list, counted from 0.
        at: u64,
        /// Why it does not.
        why: ExtWhy,
    },
    /// The tree in which units are looked for would pass a limit.
    #[error("a limit is passed")]
    Limit {
        /// `Entries`.
        which: Which,
    },
}

/// Why an extension does not fit.
#[derive(Clone, Copy, Debug, PartialEq, Eq)]
pub enum ExtWhy {
    /// It cannot be used.
    Broken(BreakWhy),
    /// A line of its release file is faulty.
    BadRelease {
        /// The first line that is, counted from 1.
        line: u64,
    },
    /// Its verdict against the image, which is not `Fits`.
    Verdict(Verdict),
}

impl From<OutOfMemory> for PortExtErr {
    ghost use Rattle.std.specs.Prelude.{◌≡◌};
    ghost use Rattle.ext_portext.specs.declared.errors.PortExtErr.TheVariants as errors;

    ghost from_gives = { λ _ e. e ≡ errors.OutOfMemory };

    fn from(_failed: OutOfMemory) -> PortExtErr {
        PortExtErr::OutOfMemory
    }
}

impl From<PortErr> for PortExtErr {
    ghost use Rattle.std.specs.Prelude.{◌≡◌};
    ghost use Rattle.ext_portext.specs.Errors.{portext_err_of_port};

    ghost from_gives = { λ failed e. e ≡ portext_err_of_port failed };

    fn from(failed: PortErr) -> PortExtErr {
        match failed {
            PortErr::OutOfMemory => PortExtErr::OutOfMemory,
            other => PortExtErr::Port(other),
        }
    }
}

impl From<ShelfErr> for PortExtErr {
    ghost use Rattle.std.specs.Prelude.{◌≡◌};
    ghost use Rattle.ext_portext.specs.Errors.{portext_err_of_shelf};

    ghost from_gives = { λ failed e. e ≡ portext_err_of_shelf failed };

    fn from(failed: ShelfErr) -> PortExtErr {
        match failed {
            ShelfErr::OutOfMemory => PortExtErr::OutOfMemory,
            ShelfErr::Fault => PortExtErr::Port(PortErr::Shelf(failed)),
            ShelfErr::Damaged(_) => PortExtErr::Port(PortErr::Shelf(failed)),
        }
    }
}

impl From<LayerErr> for PortExtErr {
    ghost use Rattle.std.specs.Prelude.{◌≡◌};
    ghost use Rattle.ext_portext.specs.Errors.{portext_err_of_layer};

    ghost from_gives = { λ failed e. e ≡ portext_err_of_layer failed };

    fn from(failed: LayerErr) -> PortExtErr {
        match failed {
            LayerErr::OutOfMemory => PortExtErr::OutOfMemory,
            LayerErr::Limit => PortExtErr::Limit {
                which: Which::Entries,
            },
        }
    }
}
