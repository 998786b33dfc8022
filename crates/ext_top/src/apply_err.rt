use ext_host::ShelfErr;
use ext_intents::PlanErr;
use ext_io::Failed;
use ext_store_files::StoreFault;
use ext_text::OutOfMemory;
use thiserror::Error;

/// Why a command was not carried out.
#[derive(Clone, Copy, Debug, PartialEq, Eq, Error)]
pub enum ApplyErr {
    /// A device failed, there was no memory, or a kept file is damaged. After a fault of the disk the store stands for what
    /// it stood for, or for what the command makes of it.
    #[error(transparent)]
    Fault(StoreFault),
    /// More left-overs stand in the store folder than one command removes.
    #[error("unfinished")]
    Unfinished,
}

impl From<OutOfMemory> for ApplyErr {
    ghost use Rattle.std.specs.Prelude.{◌≡◌};
    ghost use Rattle.ext_store_files.specs.declared.fault.StoreFault.TheVariants as store_faults;
    ghost use Rattle.ext_top.specs.declared.apply_err.ApplyErr.TheVariants as apply_errors;

    ghost from_gives = { λ _ e. e ≡ apply_errors.Fault store_faults.OutOfMemory };

    fn from(_refused: OutOfMemory) -> ApplyErr {
        ApplyErr::Fault(StoreFault::OutOfMemory)
    }
}

impl From<Failed> for ApplyErr {
    ghost use Rattle.std.specs.Prelude.{◌≡◌};
    ghost use Rattle.ext_store_files.specs.declared.fault.StoreFault.TheVariants as store_faults;
    ghost use Rattle.ext_top.specs.declared.apply_err.ApplyErr.TheVariants as apply_errors;

    ghost from_gives = { λ _ e. e ≡ apply_errors.Fault store_faults.DiskFault };

    fn from(_failed: Failed) -> ApplyErr {
        ApplyErr::Fault(StoreFault::DiskFault)
    }
}

impl From<PlanErr> for ApplyErr {
    ghost use Rattle.std.specs.Prelude.{◌≡◌};
    ghost use Rattle.ext_top.specs.Applying.{of_plan};

    ghost from_gives = { λ e f. f ≡ of_plan e };

    fn from(unplanned: PlanErr) -> ApplyErr {
        match unplanned {
            PlanErr::DepotFault => ApplyErr::Fault(StoreFault::DepotFault),
            PlanErr::Shelf(unread) => unread.into(),
            PlanErr::OutOfMemory => ApplyErr::Fault(StoreFault::OutOfMemory),
        }
    }
}

impl From<ShelfErr> for ApplyErr {
    ghost use Rattle.std.specs.Prelude.{◌≡◌};
    ghost use Rattle.ext_top.specs.Applying.{apply_err_of_shelf};

    ghost from_gives = { λ e f. f ≡ apply_err_of_shelf e };

    fn from(unread: ShelfErr) -> ApplyErr {
        ApplyErr::Fault(StoreFault::from(unread))
    }
}
