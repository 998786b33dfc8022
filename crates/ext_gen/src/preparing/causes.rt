// Errors of the parts of a change.
use crate::errors::StoreErr;
use ext_homes::HomesErr;
use ext_store_files::{CleanErr, StoreFault};

impl From<CleanErr> for StoreErr {
    ghost use Rattle.std.specs.Prelude.{◌≡◌};
    ghost use Rattle.ext_gen.specs.PreparingCauses.{store_err_of_clean};

    ghost from_gives = { λ e f. f ≡ store_err_of_clean e };

    fn from(refused: CleanErr) -> StoreErr {
        match refused {
            CleanErr::DiskFault => StoreErr::Fault(StoreFault::DiskFault),
            CleanErr::OutOfMemory => StoreErr::Fault(StoreFault::OutOfMemory),
            CleanErr::Unfinished => StoreErr::Unfinished,
        }
    }
}

impl From<HomesErr> for StoreErr {
    ghost use Rattle.std.specs.Prelude.{◌≡◌};
    ghost use Rattle.ext_gen.specs.PreparingCauses.{store_err_of_homes};

    ghost from_gives = { λ e f. f ≡ store_err_of_homes e };

    fn from(refused: HomesErr) -> StoreErr {
        match refused {
            HomesErr::Fault(fault) => StoreErr::Fault(fault),
            HomesErr::Mismatch {
                path,
                listed,
                found,
            } => StoreErr::Mismatch {
                path,
                listed,
                found,
            },
            HomesErr::NotInDepot { path } => StoreErr::NotInDepot { path },
        }
    }
}
