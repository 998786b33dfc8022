ghost use Rattle.std.specs.Prelude.{◌≡◌};
ghost use Rattle.std.specs.Option.{option_copied};
ghost use Rattle.ext_choice.specs.Room.{MakesRoom, most_beside};
ghost use Rattle.ext_choice.specs.Steps.{IsNoRoom};

use crate::protecting::{as_versions, beside};
use crate::room_err::RoomErr;
use ext_installed::Instance;
use ext_transfer::Transfer;
use ext_versions::Versions;
use std::alloc::Global;

/// The versions that go so that a target has room, the oldest first, after InstancesMax= and ProtectVersion= in
/// sysupdate.d(5). The instances are those of this transfer, in any order.
///
/// A target may have as many versions as the transfer's `instances` says; one less beside a version that is coming, which
/// doesn't count itself. As many as are too many go, with all their instances: the oldest by [`order`](ext_vers::order) of those
/// that are not protected. That is this project's own choice.
///
/// # Errors
/// - `NoRoom`, exactly where more versions are protected than may stay, with the name of the transfer file and their number.
///   A protected version without an instance doesn't count, nor does the coming one.
/// - `OutOfMemory`.
pub fn room(
    alloc: Global,
    transfer: &Transfer,
    items: &[Instance],
    coming: Option<&[u8]>,
) -> Result<Versions, RoomErr>
    ensures { MakesRoom transfer.now (option_copied coming.entry) items.now result }
{
    let versions = beside(alloc, coming, items)?;
    let protect = as_versions(alloc, transfer.protect.as_slice())?;
    let count = versions.len();
    let most = most_beside(transfer, coming);
    let free = versions.without(&protect);
    let protected = count - free.len();
    if protected > most {
        return Err(no_room(transfer, protected));
    }
    Ok(free.first(count.saturating_sub(most)))
}

// How many versions other than the coming one a target may have.
fn most_beside(transfer: &Transfer, coming: Option<&[u8]>) -> usize
    ensures { result ≡ most_beside transfer.now (option_copied coming.entry) }
{
    let most = transfer.instances as usize;
    match coming {
        None => most,
        Some(_coming) => most.saturating_sub(1),
    }
}

// That a transfer protects too many versions, or that memory ran out.
fn no_room(transfer: &Transfer, protected: usize) -> RoomErr
    ensures { IsNoRoom transfer.now.file protected result }
{
    match transfer.file.copy() {
        Err(failed) => RoomErr::from(failed),
        Ok(file) => RoomErr::NoRoom {
            file,
            protected: protected as u64,
        },
    }
}
