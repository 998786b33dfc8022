use crate::apply_err::ApplyErr;
use ext_gen::BadStore;
use ext_host::ShelfErr;
use ext_store_files::StoreFault;
use ext_text::OutOfMemory;

/// Why a run stopped at a line.
#[derive(Clone, Copy, PartialEq, Eq)]
pub enum Stop {
    /// The sink failed.
    WriteFault,
    /// The disk failed.
    DiskFault,
    /// The depot failed.
    DepotFault,
    /// Out of memory.
    OutOfMemory,
    /// What is in the store folder is no store.
    BadStore(BadStore),
    /// More left-overs stand in the store folder than one command removes.
    Unfinished,
}

impl From<OutOfMemory> for Stop {
    ghost use Rattle.std.specs.Prelude.{◌≡◌};
    ghost use Rattle.ext_top.specs.declared.stop.Stop.TheVariants as stops;

    ghost from_gives = { λ _ e. e ≡ stops.OutOfMemory };

    fn from(_failed: OutOfMemory) -> Stop {
        Stop::OutOfMemory
    }
}

impl From<StoreFault> for Stop {
    ghost use Rattle.std.specs.Prelude.{◌≡◌};
    ghost use Rattle.ext_top.specs.Stop.{stop_of_fault};

    ghost from_gives = { λ e f. f ≡ stop_of_fault e };

    fn from(fault: StoreFault) -> Stop {
        match fault {
            StoreFault::OutOfMemory => Stop::OutOfMemory,
            StoreFault::DiskFault => Stop::DiskFault,
            StoreFault::DepotFault => Stop::DepotFault,
            StoreFault::Damaged(damage) => Stop::BadStore(BadStore::Damaged(damage)),
        }
    }
}

impl From<ShelfErr> for Stop {
    ghost use Rattle.std.specs.Prelude.{◌≡◌};
    ghost use Rattle.ext_top.specs.Replying.{stop_of_shelf};

    ghost from_gives = { λ e f. f ≡ stop_of_shelf e };

    fn from(unread: ShelfErr) -> Stop {
        Stop::from(StoreFault::from(unread))
    }
}

impl From<ApplyErr> for Stop {
    ghost use Rattle.std.specs.Prelude.{◌≡◌};
    ghost use Rattle.ext_top.specs.Lines.{stop_of_apply};

    ghost from_gives = { λ e f. f ≡ stop_of_apply e };

    fn from(undone: ApplyErr) -> Stop {
        match undone {
            ApplyErr::Fault(fault) => Stop::from(fault),
            ApplyErr::Unfinished => Stop::Unfinished,
        }
    }
}
