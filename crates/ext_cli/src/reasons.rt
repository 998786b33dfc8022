// Why a run ended as it did, for a person to read.
use ext_folder::Trouble;
use ext_lines::allocated;
use ext_reasons::{Ending, reason_of_broken, reason_of_damage, reason_of_trouble};
use ext_text::OutOfMemory;
use ext_top::{BadStore, Status};
use std::alloc::Global;

/// The ending of a run with this status over the store folder at this path of the system, where this went wrong first on its
/// devices.
pub(crate) fn ending_with(
    alloc: Global,
    status: Status,
    store: &str,
    of_disk: Option<&Trouble>,
    of_depot: Option<&Trouble>,
) -> Result<Ending<Status>, OutOfMemory> {
    let reason = reason_of(alloc, &status, store, of_disk, of_depot)?;
    Ok(Ending::with(status, reason))
}

fn reason_of(
    alloc: Global,
    status: &Status,
    store: &str,
    of_disk: Option<&Trouble>,
    of_depot: Option<&Trouble>,
) -> Result<Option<String>, OutOfMemory> {
    match status {
        Status::DiskFault => reason_of_trouble(alloc, of_disk),
        Status::DepotFault => reason_of_trouble(alloc, of_depot),
        Status::BadStore(why) => Ok(Some(of_bad_store(alloc, store, why)?)),
        Status::Unfinished => Ok(Some(of_left_overs(alloc)?)),
        _ => Ok(None),
    }
}

fn of_left_overs(alloc: Global) -> Result<String, OutOfMemory> {
    allocated(String::from_str(
        alloc,
        "more was left over in STORE than one command removes: give the same command again, and of a batch the lines without a reply",
    ))
}

fn of_bad_store(alloc: Global, store: &str, why: &BadStore) -> Result<String, OutOfMemory> {
    match why {
        BadStore::Broken { line } => reason_of_broken(alloc, store, *line),
        BadStore::Damaged(damage) => reason_of_damage(alloc, store, damage),
    }
}
