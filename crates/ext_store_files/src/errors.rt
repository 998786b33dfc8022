// Why the store was not read or written.
use crate::fault::StoreFault;
use ext_disk::ListErr;
use ext_host::ShelfErr;
use ext_io::Failed;
use ext_text::OutOfMemory;
use ext_tree::Stamp;
use thiserror::Error;

/// Why a file of the store was not read.
#[derive(Clone, Copy, Debug, PartialEq, Eq, Error)]
pub enum ReadErr {
    /// The disk had a fault.
    #[error("disk fault")]
    DiskFault,
    /// Out of memory.
    #[error("out of memory")]
    OutOfMemory,
}

impl From<OutOfMemory> for ReadErr {
    ghost use Rattle.std.specs.Prelude.{◌≡◌};
    ghost use Rattle.ext_store_files.specs.declared.errors.ReadErr.TheVariants as read_errors;

    ghost from_gives = { λ _ e. e ≡ read_errors.OutOfMemory };

    fn from(_refused: OutOfMemory) -> ReadErr {
        ReadErr::OutOfMemory
    }
}

impl From<Failed> for ReadErr {
    ghost use Rattle.std.specs.Prelude.{◌≡◌};
    ghost use Rattle.ext_store_files.specs.declared.errors.ReadErr.TheVariants as read_errors;

    ghost from_gives = { λ _ e. e ≡ read_errors.DiskFault };

    fn from(_failed: Failed) -> ReadErr {
        ReadErr::DiskFault
    }
}

impl From<ReadErr> for ShelfErr {
    ghost use Rattle.std.specs.Prelude.{◌≡◌};
    ghost use Rattle.ext_store_files.specs.Reading.{shelf_err};

    ghost from_gives = { λ e f. f ≡ shelf_err e };

    fn from(refused: ReadErr) -> ShelfErr {
        match refused {
            ReadErr::DiskFault => ShelfErr::Fault,
            ReadErr::OutOfMemory => ShelfErr::OutOfMemory,
        }
    }
}

/// Why left-overs were not removed, or not all of them.
#[derive(Clone, Copy, Debug, PartialEq, Eq, Error)]
pub enum CleanErr {
    /// The disk had a fault.
    #[error("disk fault")]
    DiskFault,
    /// Out of memory.
    #[error("out of memory")]
    OutOfMemory,
    /// There are more than may be removed at a time.
    #[error("unfinished")]
    Unfinished,
}

impl From<OutOfMemory> for CleanErr {
    ghost use Rattle.std.specs.Prelude.{◌≡◌};
    ghost use Rattle.ext_store_files.specs.declared.errors.CleanErr.TheVariants as clean_errors;

    ghost from_gives = { λ _ e. e ≡ clean_errors.OutOfMemory };

    fn from(_refused: OutOfMemory) -> CleanErr {
        CleanErr::OutOfMemory
    }
}

impl From<Failed> for CleanErr {
    ghost use Rattle.std.specs.Prelude.{◌≡◌};
    ghost use Rattle.ext_store_files.specs.declared.errors.CleanErr.TheVariants as clean_errors;

    ghost from_gives = { λ _ e. e ≡ clean_errors.DiskFault };

    fn from(_failed: Failed) -> CleanErr {
        CleanErr::DiskFault
    }
}

impl From<ListErr> for CleanErr {
    ghost use Rattle.std.specs.Prelude.{◌≡◌};
    ghost use Rattle.ext_store_files.specs.Removal.{clean_err};

    ghost from_gives = { λ e f. f ≡ clean_err e };

    fn from(refused: ListErr) -> CleanErr {
        match refused {
            ListErr::Failed => CleanErr::DiskFault,
            ListErr::OutOfMemory => CleanErr::OutOfMemory,
        }
    }
}

/// Why a file of the depot was not copied into the store.
#[derive(Clone, Copy, Debug, PartialEq, Eq, Error)]
pub enum CopyErr {
    /// Out of memory.
    #[error("out of memory")]
    OutOfMemory,
    /// The disk had a fault.
    #[error("disk fault")]
    DiskFault,
    /// The depot had a fault.
    #[error("depot fault")]
    DepotFault,
    /// The depot has no such file.
    #[error("not in the depot")]
    NotInDepot,
    /// The file of the depot is another than the one that is listed.
    #[error("a file of the depot is not the listed one")]
    Mismatch {
        /// The stamp that it is listed with.
        listed: Stamp,
        /// The stamp of what was read: of the whole file, or of one byte more than are listed.
        found: Stamp,
    },
}

impl From<OutOfMemory> for CopyErr {
    ghost use Rattle.std.specs.Prelude.{◌≡◌};
    ghost use Rattle.ext_store_files.specs.declared.errors.CopyErr.TheVariants as copy_errors;

    ghost from_gives = { λ _ e. e ≡ copy_errors.OutOfMemory };

    fn from(_refused: OutOfMemory) -> CopyErr {
        CopyErr::OutOfMemory
    }
}

/// Why a file of the depot was not compared with one that the store keeps.
#[derive(Clone, Copy, Debug, PartialEq, Eq, Error)]
pub enum CompareErr {
    /// A device failed, there was no memory, or the kept file is damaged.
    #[error(transparent)]
    Fault(StoreFault),
    /// The depot has no such file.
    #[error("not in the depot")]
    NotInDepot,
    /// The file of the depot is another than the one that is listed.
    #[error("a file of the depot is not the listed one")]
    Mismatch {
        /// The stamp that it is listed with.
        listed: Stamp,
        /// The stamp of what was read: of the whole file, or of one byte more than are listed.
        found: Stamp,
    },
}

impl From<OutOfMemory> for CompareErr {
    ghost use Rattle.std.specs.Prelude.{◌≡◌};
    ghost use Rattle.ext_store_files.specs.declared.fault.StoreFault.TheVariants as store_faults;
    ghost use Rattle.ext_store_files.specs.declared.errors.CompareErr.TheVariants as compare_errors;

    ghost from_gives = { λ _ e. e ≡ compare_errors.Fault store_faults.OutOfMemory };

    fn from(_refused: OutOfMemory) -> CompareErr {
        CompareErr::Fault(StoreFault::OutOfMemory)
    }
}

impl From<ShelfErr> for CompareErr {
    ghost use Rattle.std.specs.Prelude.{◌≡◌};
    ghost use Rattle.ext_store_files.specs.Fault.{fault_of_shelf};
    ghost use Rattle.ext_store_files.specs.declared.errors.CompareErr.TheVariants as compare_errors;

    ghost from_gives = { λ e f. f ≡ compare_errors.Fault (fault_of_shelf e) };

    fn from(refused: ShelfErr) -> CompareErr {
        CompareErr::Fault(StoreFault::from(refused))
    }
}

impl From<ReadErr> for CompareErr {
    ghost use Rattle.std.specs.Prelude.{◌≡◌};
    ghost use Rattle.ext_store_files.specs.Reading.{shelf_err};
    ghost use Rattle.ext_store_files.specs.Fault.{fault_of_shelf};
    ghost use Rattle.ext_store_files.specs.declared.errors.CompareErr.TheVariants as compare_errors;

    ghost from_gives = { λ e f. f ≡ compare_errors.Fault (fault_of_shelf (shelf_err e)) };

    fn from(refused: ReadErr) -> CompareErr {
        CompareErr::from(ShelfErr::from(refused))
    }
}

impl From<CopyErr> for CompareErr {
    ghost use Rattle.std.specs.Prelude.{◌≡◌};
    ghost use Rattle.ext_store_files.specs.Comparing.{compare_err_of_copy};

    ghost from_gives = { λ e f. f ≡ compare_err_of_copy e };

    fn from(refused: CopyErr) -> CompareErr {
        match refused {
            CopyErr::OutOfMemory => CompareErr::Fault(StoreFault::OutOfMemory),
            CopyErr::DiskFault => CompareErr::Fault(StoreFault::DiskFault),
            CopyErr::DepotFault => CompareErr::Fault(StoreFault::DepotFault),
            CopyErr::NotInDepot => CompareErr::NotInDepot,
            CopyErr::Mismatch { listed, found } => CompareErr::Mismatch { listed, found },
        }
    }
}
