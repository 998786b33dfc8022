// Why a run stopped before it was done.
ghost use Rattle.std.specs.Prelude.{◌≡◌};
ghost use Rattle.ext_publish.specs.Stopping.{stop_of_store, stop_of_clean};

use ext_gen::{BadStore, StoreErr};
use ext_host::ShelfErr;
use ext_published::PubRefusal;
use ext_store_files::{CleanErr, StoreFault};
use ext_text::OutOfMemory;

/// Why a run stopped before it was done.
#[derive(Drop)]
pub(crate) enum Stop {
    /// Out of memory.
    OutOfMemory,
    /// It is refused.
    Refused(PubRefusal),
    /// The disk of the store failed.
    DiskFault,
    /// The disk of the depot failed.
    OutFault,
    /// What is in the store folder is no store.
    BadStore(BadStore),
    /// More left-overs stand in the folder than one run removes.
    Unfinished,
}

impl From<OutOfMemory> for Stop {
    ghost use Rattle.std.specs.Prelude.{◌≡◌};
    ghost use Rattle.ext_publish.specs.declared.stop.Stop.TheVariants as stops;

    ghost from_gives = { λ _ e. e ≡ stops.OutOfMemory };

    fn from(_refused: OutOfMemory) -> Stop {
        Stop::OutOfMemory
    }
}

impl From<ShelfErr> for Stop {
    ghost use Rattle.std.specs.Prelude.{◌≡◌};
    ghost use Rattle.ext_publish.specs.Stopping.{pub_stop_of_shelf};

    ghost from_gives = { λ e f. f ≡ pub_stop_of_shelf e };

    fn from(unread: ShelfErr) -> Stop {
        match unread {
            ShelfErr::OutOfMemory => Stop::OutOfMemory,
            ShelfErr::Fault => Stop::DiskFault,
            ShelfErr::Damaged(damage) => Stop::BadStore(BadStore::Damaged(damage)),
        }
    }
}

/// Why the store was not opened, as a reason why the run stopped.
pub(crate) fn stop_of_store(unopened: StoreErr) -> Stop
    ensures { result ≡ stop_of_store unopened }
{
    match unopened {
        StoreErr::Fault(StoreFault::OutOfMemory) => Stop::OutOfMemory,
        StoreErr::Fault(StoreFault::Damaged(damage)) => Stop::BadStore(BadStore::Damaged(damage)),
        StoreErr::Broken { line } => Stop::BadStore(BadStore::Broken { line }),
        StoreErr::Fault(StoreFault::DiskFault) => Stop::DiskFault,
        StoreErr::Fault(StoreFault::DepotFault) => Stop::DiskFault,
        StoreErr::Mismatch { .. } => Stop::DiskFault,
        StoreErr::NotInDepot { .. } => Stop::DiskFault,
        StoreErr::Unfinished => Stop::DiskFault,
        StoreErr::Limit { .. } => Stop::DiskFault,
    }
}

/// Why left-overs were not removed from the depot's folder, as a reason why the run stopped.
pub(crate) fn stop_of_clean(uncleaned: CleanErr) -> Stop
    ensures { result ≡ stop_of_clean uncleaned }
{
    match uncleaned {
        CleanErr::DiskFault => Stop::OutFault,
        CleanErr::OutOfMemory => Stop::OutOfMemory,
        CleanErr::Unfinished => Stop::Unfinished,
    }
}
