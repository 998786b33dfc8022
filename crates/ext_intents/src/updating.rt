// The verbs `update` and `vacuum` of `sysupdate`.
ghost use Rattle.std.specs.Prelude.{◌≡◌, ◌<◌, ◌≤◌, ℕ, List, [], length, Option, IfErr, IfOk};
ghost use Rattle.std.specs.Option.{option_copied};
ghost use Rattle.ext_depot.specs.Depot.{Files, IsKept};
ghost use Rattle.ext_host.specs.Planning.{IsBaseTree, ServesAll};
ghost use Rattle.ext_host.specs.Valid.{IsValidHost};
ghost use Rattle.ext_feature.specs.Active.{IsUpdateFile};
ghost use Rattle.ext_installed.specs.Installed.{AreInstalled};
ghost use Rattle.ext_installed.specs.declared.instance.Instances.{Instances};
ghost use Rattle.ext_update.specs.Given.{AreUpdatesFor};
ghost use Rattle.ext_cmd.specs.declared.command.UpdateVerb.TheVariants as verbs;
ghost use Rattle.ext_intents.specs.Causes.{StepCause};
ghost use Rattle.ext_intents.specs.DepotErr.{PlanCause};
ghost use Rattle.ext_intents.specs.Sysupdate.{VerbWantsOf};
ghost use Rattle.ext_intents.specs.Updating.{ByUpdate, ByVacuum, refusal_for, update_intent, vacuum_intent, wanted_text};

use crate::intent::Intent;
use crate::plan_err::PlanErr;
use crate::updates::{Looked, not_active, updates_of};
use ext_cmd::{Answer, Refusal};
use ext_depot::Depot;
use ext_feature::active;
use ext_host::{Held, Host, Shelf};
use ext_installed::installed;
use ext_text::{OutOfMemory, SortedPaths, Text};
use ext_transfer::{Component, Transfer};
use ext_tree::Tree;
use ext_update::{Update, UpdateErr, UpdateRefusal, Updates, Vacuum, plan_update, plan_vacuum};
use ext_vers::Version;
use std::alloc::Global;

// What `update` wants.
pub(crate) fn update_to_step<P: Depot, H: Shelf>(
    alloc: Global,
    host: &Host,
    base: &Tree<Held>,
    component: Option<&Component>,
    wanted: Option<&Version>,
    depot: &mut P,
    shelf: &mut H,
) -> Result<Intent, PlanErr>
    requires valid { IsValidHost host.now }
    requires base { IsBaseTree host.now base.now }
    requires serves { ServesAll (H.serves shelf.old) base.now }
    ensures wants { IfOk result (VerbWantsOf (H.told shelf.old) (P.state depot.old).contents host.now base.now
        (option_copied component.entry) (verbs.Update (option_copied wanted.entry))) }
    ensures kept { IsKept (P.state depot.old) (P.state depot.new) }
    ensures stays { H.stays shelf.old shelf.new }
    ensures count { H.faults shelf.old ≤ H.faults shelf.new }
    ensures cause { IfErr result (StepCause (IsUpdateFile base.now (option_copied component.entry)) host.now (H.told shelf.old)
        (H.faults shelf.old) (H.faults shelf.new) (P.state depot.old).faults (P.state depot.new).faults) }
{
    match updates_of(alloc, host, base, component, depot, shelf) {
        Ok(Looked::Found(updates)) => updated(alloc, host, &updates, wanted, depot),
        Ok(Looked::Refused(refusal)) => Ok(Intent::Refuses(refusal)),
        Err(failed) => Err(failed),
    }
}

// An update to the version that is asked for, or else to the newest.
fn updated<P: Depot>(
    alloc: Global,
    host: &Host,
    updates: &Updates,
    wanted: Option<&Version>,
    depot: &mut P,
) -> Result<Intent, PlanErr>
    requires valid { IsValidHost host.now }
    requires updates { AreUpdatesFor host.now updates.now }
    ensures wants { IfOk result (ByUpdate (P.state depot.old).contents host.now (option_copied wanted.entry) updates.now) }
    ensures kept { IsKept (P.state depot.old) (P.state depot.new) }
    ensures cause { IfErr result (PlanCause (P.state depot.old).faults (P.state depot.new).faults) }
{
    match plan_update(alloc, host, updates, depot, bytes_of(wanted)) {
        Ok(update) => Ok(update_intent(alloc, wanted, update)?),
        Err(UpdateErr::DepotFault) => Err(PlanErr::DepotFault),
        Err(UpdateErr::OutOfMemory) => Err(PlanErr::OutOfMemory),
    }
}

// The bytes of the version that is asked for.
fn bytes_of(wanted: Option<&Version>) -> Option<&[u8]>
    ensures { option_copied result ≡ option_copied wanted.entry }
{
    match wanted {
        Some(version) => Some(version.bytes()),
        None => None,
    }
}

// What `update` wants by its plan.
fn update_intent(
    alloc: Global,
    wanted: Option<&Version>,
    update: Update,
) -> Result<Intent, OutOfMemory>
    ensures { IfOk result (λ intent. intent ≡ update_intent (option_copied wanted.entry) update) }
{
    match update {
        Update::Unchanged => Ok(Intent::Answers(Answer::Unchanged)),
        Update::Changes(version, next) => {
            Ok(Intent::Changes(next, Answer::Updated(version.into_text())))
        }
        Update::Refused(reason) => {
            let wanted = wanted_text(alloc, wanted)?;
            Ok(Intent::Refuses(refusal_of(wanted, reason)))
        }
    }
}

// The text of the version that is asked for.
fn wanted_text(alloc: Global, wanted: Option<&Version>) -> Result<Text, OutOfMemory>
    ensures { IfOk result (λ text. text ≡ wanted_text (option_copied wanted.entry)) }
{
    match wanted {
        Some(version) => Text::from_bytes(alloc, version.bytes()),
        None => Ok(Text::new(alloc)),
    }
}

// How a plan's refusal is told, where the version with this text is asked for.
fn refusal_of(wanted: Text, reason: UpdateRefusal) -> Refusal
    ensures { (asked : Option (List ℕ)) → wanted ≡ wanted_text asked → result ≡ refusal_for asked reason }
{
    match reason {
        UpdateRefusal::NoSuchVersion => Refusal::NoSuchVersion { version: wanted },
        UpdateRefusal::NotInDepot { path } => Refusal::NotInDepot { path },
        UpdateRefusal::Limit { which } => Refusal::Limit { which },
        UpdateRefusal::Mismatch {
            path,
            listed,
            found,
        } => Refusal::Mismatch {
            path,
            listed,
            found,
        },
        UpdateRefusal::BadTree { path, line } => Refusal::BadTree {
            line,
            path: Some(path),
        },
        UpdateRefusal::NoRoom { file, protected } => Refusal::NoRoom {
            count: protected,
            file,
        },
        UpdateRefusal::ReadOnly { path } => Refusal::ReadOnly { path },
        UpdateRefusal::Clash { path } => Refusal::Clash { path },
        UpdateRefusal::NotDirectory { path } => Refusal::NotDirectory { path },
    }
}

// What `vacuum` wants. The depot is not looked at.
pub(crate) fn vacuum_step<H: Shelf>(
    alloc: Global,
    host: &Host,
    base: &Tree<Held>,
    component: Option<&Component>,
    shelf: &mut H,
) -> Result<Intent, PlanErr>
    requires valid { IsValidHost host.now }
    requires base { IsBaseTree host.now base.now }
    requires serves { ServesAll (H.serves shelf.old) base.now }
    ensures wants { (files : Option Files) → IfOk result (VerbWantsOf (H.told shelf.old) files host.now base.now
        (option_copied component.entry) verbs.Vacuum) }
    ensures stays { H.stays shelf.old shelf.new }
    ensures count { H.faults shelf.old ≤ H.faults shelf.new }
    ensures cause { (before after : ℕ) → IfErr result (StepCause (IsUpdateFile base.now (option_copied component.entry)) host.now
        (H.told shelf.old) (H.faults shelf.old) (H.faults shelf.new) before after) }
{
    match active(alloc, base, host.arch, component, shelf) {
        Ok(transfers) => Ok(vacuumed(alloc, host, base, transfers.as_slice())?),
        Err(failed) => Ok(Intent::Refuses(not_active(failed)?)),
    }
}

// Room in the targets of transfers.
fn vacuumed(
    alloc: Global,
    host: &Host,
    base: &Tree<Held>,
    transfers: &[Transfer],
) -> Result<Intent, OutOfMemory>
    requires some { 0 < length transfers.now }
    requires valid { IsValidHost host.now }
    ensures { IfOk result (λ intent. (installed : Instances) × AreInstalled base.now transfers.now installed
        × ByVacuum host.now transfers.now installed.items intent) }
{
    let installed = installed(alloc, base, transfers)?;
    let vacuum = plan_vacuum(alloc, host, transfers, &installed)?;
    Ok(vacuum_intent(alloc, vacuum))
}

// What `vacuum` wants by its plan.
fn vacuum_intent(alloc: Global, vacuum: Vacuum) -> Intent
    ensures { result ≡ vacuum_intent vacuum }
{
    match vacuum {
        Vacuum::Unchanged => Intent::Answers(Answer::Removed(no_paths(alloc))),
        Vacuum::Changes(removed, next) => Intent::Changes(next, Answer::Removed(removed)),
        Vacuum::Refused(reason) => Intent::Refuses(refusal_of(Text::new(alloc), reason)),
    }
}

// No path.
fn no_paths(alloc: Global) -> SortedPaths
    ensures { result ≡ [] }
{
    SortedPaths::of(Vec::new(alloc))
}
