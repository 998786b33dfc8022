ghost use Rattle.std.specs.Option.{option_copied};
ghost use Rattle.ext_choice.specs.Vacuum.{AreByTransfer, Vacuums};

use crate::division::divide;
use crate::room_err::RoomErr;
use ext_installed::Instances;
use ext_text::SortedPaths;
use ext_transfer::Transfer;
use std::alloc::Global;

/// The paths that go so that each target has room, in path order and each once: those that [`divide`] gives, with the same
/// conditions and errors.
pub fn vacuum_list(
    alloc: Global,
    transfers: &[Transfer],
    installed: &Instances,
    coming: Option<&[u8]>,
) -> Result<SortedPaths, RoomErr>
    requires { AreByTransfer 0 installed.now.items }
    ensures { Vacuums transfers.now (option_copied coming.entry) installed.now.items result }
{
    match divide(alloc, transfers, installed, coming) {
        Err(refused) => Err(refused),
        Ok(division) => Ok(division.removed),
    }
}
