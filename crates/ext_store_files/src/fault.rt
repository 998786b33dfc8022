ghost use Rattle.std.specs.Prelude.{◌≡◌};

use ext_host::{Damage, ShelfErr};
use ext_text::OutOfMemory;
use thiserror::Error;

/// What may go wrong in whatever reads or writes a store.
#[derive(Clone, Copy, Debug, PartialEq, Eq, Error)]
pub enum StoreFault {
    /// Out of memory.
    #[error("out of memory")]
    OutOfMemory,
    /// The disk had a fault.
    #[error("disk fault")]
    DiskFault,
    /// The depot had a fault.
    #[error("depot fault")]
    DepotFault,
    /// A kept file is another than the one that is listed.
    #[error("a kept file is damaged")]
    Damaged(Damage),
}

impl From<OutOfMemory> for StoreFault {
    ghost use Rattle.ext_store_files.specs.declared.fault.StoreFault.TheVariants as store_faults;

    ghost from_gives = { λ _ fault. fault ≡ store_faults.OutOfMemory };

    fn from(_refused: OutOfMemory) -> StoreFault {
        StoreFault::OutOfMemory
    }
}

impl From<ShelfErr> for StoreFault {
    ghost use Rattle.ext_store_files.specs.Fault.{fault_of_shelf};

    ghost from_gives = { λ e fault. fault ≡ fault_of_shelf e };

    fn from(refused: ShelfErr) -> StoreFault {
        match refused {
            ShelfErr::OutOfMemory => StoreFault::OutOfMemory,
            ShelfErr::Fault => StoreFault::DiskFault,
            ShelfErr::Damaged(damage) => StoreFault::Damaged(damage),
        }
    }
}
