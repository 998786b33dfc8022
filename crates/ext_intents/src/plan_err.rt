use ext_depot::DepotErr;
use ext_host::ShelfErr;
use ext_text::OutOfMemory;
use thiserror::Error;

/// Why nothing was planned.
#[derive(Clone, Copy, Debug, PartialEq, Eq, Error)]
pub enum PlanErr {
    /// The depot had a fault.
    #[error("depot fault")]
    DepotFault,
    /// The shelf did not give the bytes of a file of the host; never where memory ran out.
    #[error("a file of the host is not given")]
    Shelf(ShelfErr),
    /// An allocation failed.
    #[error("out of memory")]
    OutOfMemory,
}

impl From<OutOfMemory> for PlanErr {
    ghost use Rattle.std.specs.Prelude.{◌≡◌};
    ghost use Rattle.ext_intents.specs.declared.plan_err.PlanErr.TheVariants as errors;

    ghost from_gives = { λ _ e. e ≡ errors.OutOfMemory };

    fn from(_failed: OutOfMemory) -> PlanErr {
        PlanErr::OutOfMemory
    }
}

impl From<DepotErr> for PlanErr {
    ghost use Rattle.std.specs.Prelude.{◌≡◌};
    ghost use Rattle.ext_intents.specs.DepotErr.{of_depot};

    ghost from_gives = { λ e f. f ≡ of_depot e };

    fn from(failed: DepotErr) -> PlanErr {
        match failed {
            DepotErr::Fault => PlanErr::DepotFault,
            DepotErr::OutOfMemory => PlanErr::OutOfMemory,
        }
    }
}
