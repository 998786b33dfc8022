// Why a store was not opened, or a change of it not prepared.
use ext_index::IndexErr;
use ext_io::Failed;
use ext_store_files::{ReadErr, StoreFault};
use ext_text::{OutOfMemory, Path, Which};
use ext_tree::Stamp;
use thiserror::Error;

/// Why a store was not opened, or a change of it not prepared.
#[derive(Debug, Drop, Error)]
pub enum StoreErr {
    /// A device failed, there was no memory, or a kept file is damaged.
    #[error(transparent)]
    Fault(StoreFault),
    /// `current`, or the index that it names, is none.
    #[error("the store is broken at line {line}")]
    Broken {
        /// 0 where `current` names no generation, else the first line of the index that breaks a rule.
        line: u64,
    },
    /// The file of the depot is another than the one that is listed.
    #[error("a file of the depot is not the listed one")]
    Mismatch {
        /// Where the depot has it.
        path: Path,
        /// The stamp that it is listed with.
        listed: Stamp,
        /// The stamp of what was read: of the whole file, or of one byte more than are listed.
        found: Stamp,
    },
    /// The depot has no such file.
    #[error("not in the depot")]
    NotInDepot {
        /// Where the depot should have it.
        path: Path,
    },
    /// More left-overs stand in the store than one change removes.
    #[error("unfinished")]
    Unfinished,
    /// The coming index would be too long, or there is no number for another generation.
    #[error("a limit of the store was passed")]
    Limit {
        /// `Index` or `Generations`.
        which: Which,
    },
}

impl From<OutOfMemory> for StoreErr {
    ghost use Rattle.std.specs.Prelude.{◌≡◌};
    ghost use Rattle.ext_store_files.specs.declared.fault.StoreFault.TheVariants as store_faults;
    ghost use Rattle.ext_gen.specs.declared.errors.StoreErr.TheVariants as store_errors;

    ghost from_gives = { λ _ e. e ≡ store_errors.Fault store_faults.OutOfMemory };

    fn from(_refused: OutOfMemory) -> StoreErr {
        StoreErr::Fault(StoreFault::OutOfMemory)
    }
}

impl From<Failed> for StoreErr {
    ghost use Rattle.std.specs.Prelude.{◌≡◌};
    ghost use Rattle.ext_store_files.specs.declared.fault.StoreFault.TheVariants as store_faults;
    ghost use Rattle.ext_gen.specs.declared.errors.StoreErr.TheVariants as store_errors;

    ghost from_gives = { λ _ e. e ≡ store_errors.Fault store_faults.DiskFault };

    fn from(_failed: Failed) -> StoreErr {
        StoreErr::Fault(StoreFault::DiskFault)
    }
}

impl From<ReadErr> for StoreErr {
    ghost use Rattle.std.specs.Prelude.{◌≡◌};
    ghost use Rattle.ext_gen.specs.Errors.{store_err_of_read};

    ghost from_gives = { λ e f. f ≡ store_err_of_read e };

    fn from(refused: ReadErr) -> StoreErr {
        match refused {
            ReadErr::DiskFault => StoreErr::Fault(StoreFault::DiskFault),
            ReadErr::OutOfMemory => StoreErr::Fault(StoreFault::OutOfMemory),
        }
    }
}

impl From<IndexErr> for StoreErr {
    ghost use Rattle.std.specs.Prelude.{◌≡◌};
    ghost use Rattle.ext_gen.specs.Errors.{store_err_of_index};

    ghost from_gives = { λ e f. f ≡ store_err_of_index e };

    fn from(refused: IndexErr) -> StoreErr {
        match refused {
            IndexErr::OutOfMemory => StoreErr::Fault(StoreFault::OutOfMemory),
            IndexErr::Broken { line } => StoreErr::Broken { line },
        }
    }
}
