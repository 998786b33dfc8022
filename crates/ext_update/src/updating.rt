ghost use Rattle.std.specs.Prelude.{◌≡◌, IfErr, IfOk};
ghost use Rattle.std.specs.List.{AllByRecursion};
ghost use Rattle.std.specs.Option.{option_copied};
ghost use Rattle.ext_depot.specs.Depot.{IsKept};
ghost use Rattle.ext_host.specs.Planning.{IsPlannedHost};
ghost use Rattle.ext_host.specs.Valid.{IsValidHost};
ghost use Rattle.ext_available.specs.Available.{IsOffered};
ghost use Rattle.ext_resources.specs.Resources.{AreResources};
ghost use Rattle.ext_update.specs.Drafts.{IsOfTransfer};
ghost use Rattle.ext_update.specs.Given.{AreUpdatesFor};
ghost use Rattle.ext_update.specs.Steps.{IfUpdated, IsDraftOf};
ghost use Rattle.ext_update.specs.Untaken.{UpdateCause, not_taken};
ghost use Rattle.ext_update.specs.Update.{DividedWants, TakenWants, UpdateWants, VersionWants, update_of};
ghost use Rattle.ext_update.specs.declared.planned.Update.TheVariants.{Refused};
ghost use Rattle.ext_update.specs.declared.refusal.UpdateRefusal.TheVariants.{Limit};

use crate::arriving::arrivals;
use crate::draft::Draft;
use crate::items_of::items_of;
use crate::linking::links_of;
use crate::planned::{Planned, Update};
use crate::refusal::UpdateRefusal;
use crate::staging::plan;
use crate::update_err::UpdateErr;
use crate::updates::Updates;
use ext_choice::{Choice, Division, RoomErr, choose, divide};
use ext_depot::Depot;
use ext_host::Host;
use ext_resources::{Resource, ResourceErr, resources};
use ext_text::{OutOfMemory, Which};
use ext_vers::Version;
use std::alloc::Global;

/// What an update of a valid host wants, to the version that is wanted or else to the newest, by its updates and by what the depot
/// has. After systemd-sysupdate(8), command `update`.
///
/// A version that is installed already, or none that is newer, changes nothing. Else each transfer that has no instance of the
/// version gets its resource, so many of the oldest instances go that there is room for it, and the links to the current version
/// are set. The manifests of what is written or removed go, and each resource leaves one. The coming host is valid, and each file
/// that it keeps is one of the host's.
///
/// The updates are those of the host, as they are found by what its base has. No file's bytes are read here. The work grows with
/// the entries, the instances and the paths that are written, times logarithms and the depth of paths.
///
/// It refuses by the first of these, which is this project's own order:
///
/// - `NoSuchVersion` where the wanted version is neither installed nor available.
/// - `NotInDepot`, `Limit` of a file or a text, `Mismatch` or `BadTree` for the first transfer whose resource can't be taken, as
///   [`resources`](ext_resources::resources) says.
/// - `NoRoom` for the first transfer that protects more versions than may stay.
/// - `ReadOnly` with the least path that is written or removed and that a merge locks.
/// - `Clash` with the least path of an item that is in the way, as [`clash`](ext_updated::clash) says.
/// - `NotDirectory` with the least path above what is written at which something stands that is no directory.
/// - `Limit` of a path, where the path of a resource or of what is below it, that of a file in the depot, or the text of a link
///   passes its limits; then of the entries, then of the bytes of what is seen and what lies under the view.
///
/// A resource whose own path would pass the limits counts neither for `ReadOnly` nor for `Clash`.
///
/// # Errors
/// - `DepotFault` only where the depot counted a fault.
/// - `OutOfMemory`.
pub fn plan_update<P: Depot>(
    alloc: Global,
    host: &Host,
    updates: &Updates,
    depot: &mut P,
    wanted: Option<&[u8]>,
) -> Result<Update, UpdateErr>
    requires valid { IsValidHost host.now }
    requires updates { AreUpdatesFor host.now updates.now }
    ensures wants { IfOk result (UpdateWants (P.state depot.old).contents host.now updates.now (option_copied wanted.entry)) }
    ensures planned { IfOk result (IfUpdated (IsPlannedHost host.now)) }
    ensures kept { IsKept (P.state depot.old) (P.state depot.new) }
    ensures cause { IfErr result (UpdateCause (P.state depot.old).faults (P.state depot.new).faults) }
{
    match choose(&updates.available, &updates.installed.versions, wanted) {
        Choice::Install(place) => {
            let version = &updates.available.as_slice()[place];
            update_to(alloc, host, updates, version, depot)
        }
        Choice::Present | Choice::NoneNewer => Ok(Update::Unchanged),
        Choice::NoSuch => Ok(Update::Refused(UpdateRefusal::NoSuchVersion)),
    }
}

// What an update to a version wants, which is available.
fn update_to<P: Depot>(
    alloc: Global,
    host: &Host,
    updates: &Updates,
    version: &Version,
    depot: &mut P,
) -> Result<Update, UpdateErr>
    requires valid { IsValidHost host.now }
    requires updates { AreUpdatesFor host.now updates.now }
    requires offered { AllByRecursion (IsOffered version.now) updates.now.offers }
    ensures wants { IfOk result (VersionWants (P.state depot.old).contents host.now updates.now version.now) }
    ensures planned { IfOk result (IfUpdated (IsPlannedHost host.now)) }
    ensures kept { IsKept (P.state depot.old) (P.state depot.new) }
    ensures cause { IfErr result (UpdateCause (P.state depot.old).faults (P.state depot.new).faults) }
{
    let taken = resources(
        alloc,
        updates.transfers.as_slice(),
        updates.offers.as_slice(),
        updates.installed.items.as_slice(),
        version.bytes(),
        depot,
    );
    match taken {
        Ok(resources) => Ok(update_with(alloc, host, updates, version, resources)?),
        Err(failed) => not_taken(failed),
    }
}

// How it is told that a resource can't be taken.
fn not_taken(failed: ResourceErr) -> Result<Update, UpdateErr>
    ensures { result ≡ not_taken failed }
{
    match failed {
        ResourceErr::OutOfMemory => Err(UpdateErr::OutOfMemory),
        ResourceErr::Fault => Err(UpdateErr::DepotFault),
        ResourceErr::NotInDepot { path } => {
            Ok(Update::Refused(UpdateRefusal::NotInDepot { path }))
        }
        ResourceErr::FileTooLarge { path: _ } => Ok(limit(Which::File)),
        ResourceErr::TextTooLong { path: _ } => Ok(limit(Which::Text)),
        ResourceErr::Mismatch {
            path,
            listed,
            found,
        } => Ok(Update::Refused(UpdateRefusal::Mismatch {
            path,
            listed,
            found,
        })),
        ResourceErr::BadTree { path, line } => {
            Ok(Update::Refused(UpdateRefusal::BadTree { path, line }))
        }
    }
}

// The refusal of what passes a limit.
fn limit(which: Which) -> Update
    ensures { result ≡ Refused (Limit which) }
{
    Update::Refused(UpdateRefusal::Limit { which })
}

// What an update wants, whose resources were taken.
fn update_with(
    alloc: Global,
    host: &Host,
    updates: &Updates,
    version: &Version,
    resources: Vec<Resource>,
) -> Result<Update, OutOfMemory>
    requires valid { IsValidHost host.now }
    requires updates { AreUpdatesFor host.now updates.now }
    requires resources { AreResources updates.now.transfers updates.now.offers updates.now.installed.items version.now resources.items }
    ensures wants { IfOk result (TakenWants host.now updates.now version.now resources.items) }
    ensures planned { IfOk result (IfUpdated (IsPlannedHost host.now)) }
{
    let coming = Some(version.bytes());
    match divide(
        alloc,
        updates.transfers.as_slice(),
        &updates.installed,
        coming,
    ) {
        Ok(division) => update_divided(alloc, host, updates, version, resources, division),
        Err(RoomErr::OutOfMemory) => Err(OutOfMemory),
        Err(RoomErr::NoRoom { file, protected }) => {
            Ok(Update::Refused(UpdateRefusal::NoRoom { file, protected }))
        }
    }
}

// What an update wants where there is room.
fn update_divided(
    alloc: Global,
    host: &Host,
    updates: &Updates,
    version: &Version,
    resources: Vec<Resource>,
    division: Division,
) -> Result<Update, OutOfMemory>
    requires valid { IsValidHost host.now }
    requires updates { AreUpdatesFor host.now updates.now }
    requires resources { AreResources updates.now.transfers updates.now.offers updates.now.installed.items version.now resources.items }
    ensures wants { IfOk result (DividedWants host.now updates.now version.now resources.items division) }
    ensures planned { IfOk result (IfUpdated (IsPlannedHost host.now)) }
{
    let coming = version.copy()?;
    let draft = draft_of(alloc, updates, version, resources)?;
    let items = items_of(alloc, &draft, division)?;
    let planned = plan(alloc, host, &items, draft)?;
    Ok(update_of(coming, planned))
}

// What an update to a version writes.
fn draft_of(
    alloc: Global,
    updates: &Updates,
    version: &Version,
    resources: Vec<Resource>,
) -> Result<Draft, OutOfMemory>
    requires { AllByRecursion (IsOfTransfer updates.now.transfers) resources.items }
    ensures { IfOk result (IsDraftOf updates.now version.now resources.items) }
{
    let transfers = updates.transfers.as_slice();
    let items = updates.installed.items.as_slice();
    let links = links_of(
        alloc,
        transfers,
        items,
        resources.as_slice(),
        version.bytes(),
    )?;
    let arrivals = arrivals(alloc, transfers, resources)?;
    Ok(Draft { arrivals, links })
}

// An update of what was planned.
fn update_of(version: Version, planned: Planned) -> Update
    ensures { result ≡ update_of version planned }
{
    match planned {
        Planned::Next(next) => Update::Changes(version, next),
        Planned::Refused(refusal) => Update::Refused(refusal),
    }
}
