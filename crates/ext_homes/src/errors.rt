// Why a file of a coming host got no home.
ghost use Rattle.std.specs.Prelude.{◌≡◌, ◌⊎◌};
ghost use Rattle.ext_store_files.specs.declared.fault.StoreFault.TheVariants as store_faults;
ghost use Rattle.ext_homes.specs.declared.errors.HomesErr.TheVariants as errors;

use ext_host::ShelfErr;
use ext_store_files::StoreFault;
use ext_text::{OutOfMemory, Path};
use ext_tree::Stamp;
use thiserror::Error;

/// Why the files of a coming host have no homes.
#[derive(Debug, Drop, Error)]
pub enum HomesErr {
    /// A device failed, there was no memory, or a kept file with the stamp of a brought one is damaged.
    #[error(transparent)]
    Fault(StoreFault),
    /// A file of the depot is another than the one that is listed.
    #[error("a file of the depot is not the listed one")]
    Mismatch {
        /// Where the depot has the file.
        path: Path,
        /// The stamp that it is listed with.
        listed: Stamp,
        /// The stamp of what was read: of the whole file, or of one byte more than are listed.
        found: Stamp,
    },
    /// The depot has no such file.
    #[error("not in the depot")]
    NotInDepot {
        /// Where the depot should have the file.
        path: Path,
    },
}

impl From<OutOfMemory> for HomesErr {
    ghost from_gives = { λ _ e. e ≡ errors.Fault store_faults.OutOfMemory };

    fn from(_refused: OutOfMemory) -> HomesErr {
        HomesErr::Fault(StoreFault::OutOfMemory)
    }
}

impl From<ShelfErr> for HomesErr {
    ghost use Rattle.ext_store_files.specs.Fault.{fault_of_shelf};

    ghost from_gives = { λ e f. f ≡ errors.Fault (fault_of_shelf e) };

    fn from(refused: ShelfErr) -> HomesErr {
        HomesErr::Fault(StoreFault::from(refused))
    }
}

/// The depot has no file at this path. Where the path finds no memory, that is the error.
pub(crate) fn not_in_depot(path: &Path) -> HomesErr
    ensures { (result ≡ errors.NotInDepot path.now) ⊎ (result ≡ errors.Fault store_faults.OutOfMemory) }
{
    match path.copy() {
        Ok(path) => HomesErr::NotInDepot { path },
        Err(_) => HomesErr::Fault(StoreFault::OutOfMemory),
    }
}

/// The depot has another file at this path. Where the path finds no memory, that is the error.
pub(crate) fn mismatch(path: &Path, listed: Stamp, found: Stamp) -> HomesErr
    ensures { (result ≡ errors.Mismatch path.now listed found) ⊎ (result ≡ errors.Fault store_faults.OutOfMemory) }
{
    match path.copy() {
        Ok(path) => HomesErr::Mismatch {
            path,
            listed,
            found,
        },
        Err(_) => HomesErr::Fault(StoreFault::OutOfMemory),
    }
}
