ghost use Rattle.std.specs.Prelude.{◌≡◌, IfOk};
ghost use Rattle.ext_tree.specs.Tree.{Entries};
ghost use Rattle.ext_installed.specs.Installed.{AreInstalled};
ghost use Rattle.ext_host.specs.Held.{HeldFile};
ghost use Rattle.ext_host.specs.Planning.{IsPlannedHost};
ghost use Rattle.ext_host.specs.Valid.{IsValidHost};
ghost use Rattle.ext_update.specs.Steps.{IfVacuumed};
ghost use Rattle.ext_update.specs.Vacuum.{GoneWants, VacuumWants, vacuum_of};

use crate::draft::Draft;
use crate::items_of::items_of;
use crate::planned::{Planned, Vacuum};
use crate::refusal::UpdateRefusal;
use crate::staging::plan;
use ext_choice::{Division, RoomErr, divide};
use ext_host::Host;
use ext_installed::Instances;
use ext_text::{OutOfMemory, SortedPaths};
use ext_transfer::Transfer;
use std::alloc::Global;

/// What making room wants of a valid host, by transfers and what a base has of them. After systemd-sysupdate(8), command
/// `vacuum`.
///
/// The oldest instances go that no transfer protects, so that each target has no more versions than its transfer allows. Where
/// none goes nothing changes. The manifests of what goes go too. The coming host is valid, and each file that it keeps is one of
/// the host's.
///
/// What sources offer counts for nothing. It refuses by the first of these:
///
/// - `NoRoom` for the first transfer that protects more versions than may stay.
/// - `ReadOnly` with the least path that is removed and that a merge locks.
/// - `Clash` with the least path that is removed and is in the way of an instance that stays.
///
/// # Errors
/// `OutOfMemory` alone.
pub fn plan_vacuum(
    alloc: Global,
    host: &Host,
    transfers: &[Transfer],
    installed: &Instances,
) -> Result<Vacuum, OutOfMemory>
    requires valid { IsValidHost host.now }
    requires installed { (base : Entries HeldFile) × AreInstalled base transfers.now installed.now }
    ensures wants { IfOk result (VacuumWants host.now transfers.now installed.now.items) }
    ensures planned { IfOk result (IfVacuumed (IsPlannedHost host.now)) }
{
    match divide(alloc, transfers, installed, None) {
        Ok(division) => vacuum(alloc, host, division),
        Err(RoomErr::OutOfMemory) => Err(OutOfMemory),
        Err(RoomErr::NoRoom { file, protected }) => {
            Ok(Vacuum::Refused(UpdateRefusal::NoRoom { file, protected }))
        }
    }
}

// What is wanted of what goes and what stays.
fn vacuum(alloc: Global, host: &Host, division: Division) -> Result<Vacuum, OutOfMemory>
    requires { IsValidHost host.now }
    ensures wants { IfOk result (GoneWants host.now division division.removed) }
    ensures planned { IfOk result (IfVacuumed (IsPlannedHost host.now)) }
{
    if division.removed.as_slice().is_empty() {
        return Ok(Vacuum::Unchanged);
    }
    let draft = Draft {
        arrivals: Vec::new(alloc),
        links: Vec::new(alloc),
    };
    let items = items_of(alloc, &draft, division)?;
    let planned = plan(alloc, host, &items, draft)?;
    Ok(vacuum_of(items.removed, planned))
}

// What was planned of what goes.
fn vacuum_of(removed: SortedPaths, planned: Planned) -> Vacuum
    ensures { result ≡ vacuum_of removed planned }
{
    match planned {
        Planned::Next(next) => Vacuum::Changes(removed, next),
        Planned::Refused(refusal) => Vacuum::Refused(refusal),
    }
}
