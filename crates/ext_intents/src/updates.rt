// What the updates of a component are about.
ghost use Rattle.std.specs.Prelude.{◌≡◌, ◌<◌, ◌≤◌, length, IfErr, IfOk};
ghost use Rattle.std.specs.List.{AllByRecursion};
ghost use Rattle.std.specs.Option.{option_copied};
ghost use Rattle.ext_depot.specs.Depot.{IsKept};
ghost use Rattle.ext_host.specs.Planning.{IsBaseTree, ServesAll};
ghost use Rattle.ext_transfer.specs.Bounds.{KeepsBounds};
ghost use Rattle.ext_feature.specs.Active.{IsUpdateFile};
ghost use Rattle.ext_intents.specs.Causes.{StepCause};
ghost use Rattle.ext_intents.specs.DepotErr.{PlanCause};
ghost use Rattle.ext_intents.specs.Updates.{AreUpdatesOf, LooksAs, LooksAtTransfers, not_active, not_offered};

use crate::plan_err::PlanErr;
use ext_available::{Offers, OffersErr, available, offers};
use ext_cmd::Refusal;
use ext_depot::Depot;
use ext_feature::{ActiveErr, Transfers, active};
use ext_host::{Held, Host, Shelf};
use ext_installed::installed;
use ext_text::{ListOf, OutOfMemory, Which};
use ext_transfer::Component;
use ext_tree::Tree;
use ext_update::Updates;
use std::alloc::Global;

/// What a look at the updates of a component gives.
#[derive(Drop)]
pub enum Looked {
    // What they are about.
    Found(Updates),
    // Why that isn't known.
    Refused(Refusal),
}

// What the updates of a component are about, by what the base of the host has and what the depot lists.
pub(crate) fn updates_of<P: Depot, H: Shelf>(
    alloc: Global,
    host: &Host,
    base: &Tree<Held>,
    component: Option<&Component>,
    depot: &mut P,
    shelf: &mut H,
) -> Result<Looked, PlanErr>
    requires base { IsBaseTree host.now base.now }
    requires serves { ServesAll (H.serves shelf.old) base.now }
    ensures looks { IfOk result (LooksAs (H.told shelf.old) (P.state depot.old).contents host.now base.now
        (option_copied component.entry)) }
    ensures kept { IsKept (P.state depot.old) (P.state depot.new) }
    ensures stays { H.stays shelf.old shelf.new }
    ensures count { H.faults shelf.old ≤ H.faults shelf.new }
    ensures cause { IfErr result (StepCause (IsUpdateFile base.now (option_copied component.entry)) host.now (H.told shelf.old)
        (H.faults shelf.old) (H.faults shelf.new) (P.state depot.old).faults (P.state depot.new).faults) }
{
    match active(alloc, base, host.arch, component, shelf) {
        Ok(transfers) => updates_of_transfers(alloc, base, transfers, depot),
        Err(failed) => Ok(Looked::Refused(not_active(failed)?)),
    }
}

// How it is told that the transfers that are on are not known.
pub(crate) fn not_active(failed: ActiveErr) -> Result<Refusal, PlanErr>
    ensures { result ≡ not_active failed }
{
    match failed {
        ActiveErr::OutOfMemory => Err(PlanErr::OutOfMemory),
        ActiveErr::BadFeature { file, line, why } => Ok(Refusal::BadFeature { line, why, file }),
        ActiveErr::BadHostRelease { line } => Ok(Refusal::BadHostRelease { line }),
        ActiveErr::NoTransfers => Ok(Refusal::NoTransfers),
        ActiveErr::BadTransfer { file, line, why } => Ok(Refusal::BadTransfer { line, why, file }),
        ActiveErr::NoneOn => Ok(Refusal::NoneOn),
        ActiveErr::Shelf(failed) => Err(PlanErr::Shelf(failed)),
    }
}

// What they are about, by the transfers that are on.
fn updates_of_transfers<P: Depot>(
    alloc: Global,
    base: &Tree<Held>,
    transfers: Transfers,
    depot: &mut P,
) -> Result<Looked, PlanErr>
    requires some { 0 < length transfers }
    requires bounds { AllByRecursion KeepsBounds transfers }
    ensures looks { IfOk result (LooksAtTransfers (P.state depot.old).contents base.now transfers) }
    ensures kept { IsKept (P.state depot.old) (P.state depot.new) }
    ensures cause { IfErr result (PlanCause (P.state depot.old).faults (P.state depot.new).faults) }
{
    match offers(alloc, transfers.as_slice(), depot) {
        Ok(offers) => {
            let offers = ListOf::from_vec(offers);
            let updates = updates_of_offers(alloc, base, transfers, offers)?;
            Ok(Looked::Found(updates))
        }
        Err(failed) => not_offered(failed),
    }
}

// How it is told that it isn't known what sources offer.
fn not_offered(failed: OffersErr) -> Result<Looked, PlanErr>
    ensures { result ≡ not_offered failed }
{
    match failed {
        OffersErr::OutOfMemory => Err(PlanErr::OutOfMemory),
        OffersErr::Fault => Err(PlanErr::DepotFault),
        OffersErr::NotInDepot { path } => Ok(Looked::Refused(Refusal::NotInDepot { path })),
        OffersErr::TooLong => Ok(Looked::Refused(Refusal::Limit { which: Which::Text })),
        OffersErr::BadManifest { path, line } => {
            Ok(Looked::Refused(Refusal::BadManifest { line, path }))
        }
    }
}

// What they are about, by the transfers that are on and what their sources offer.
fn updates_of_offers(
    alloc: Global,
    base: &Tree<Held>,
    transfers: Transfers,
    offers: ListOf<Offers>,
) -> Result<Updates, OutOfMemory>
    requires some { 0 < length transfers }
    requires offered { length offers ≡ length transfers }
    ensures { IfOk result (AreUpdatesOf base.now transfers offers) }
{
    let available = available(alloc, transfers.as_slice(), offers.as_slice())?;
    let installed = installed(alloc, base, transfers.as_slice())?;
    Ok(Updates {
        transfers,
        offers,
        available,
        installed,
    })
}
