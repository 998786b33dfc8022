// The commands `sysupdate`.
ghost use Rattle.std.specs.Prelude.{◌≡◌, ◌≤◌, Option, IfErr, IfOk, map};
ghost use Rattle.std.specs.Option.{option_copied};
ghost use Rattle.ext_depot.specs.Depot.{Files, IsKept};
ghost use Rattle.ext_host.specs.Planning.{IsBaseTree, ServesAll, ServesHost};
ghost use Rattle.ext_host.specs.Valid.{IsValidHost};
ghost use Rattle.ext_feature.specs.Active.{IsUpdateFile};
ghost use Rattle.ext_feature.specs.Features.{IsFeatureFile};
ghost use Rattle.ext_cmd.specs.declared.command.UpdateVerb.TheVariants as verbs;
ghost use Rattle.ext_intents.specs.Causes.{StepCause, ViewCause};
ghost use Rattle.ext_intents.specs.Sysupdate.{ChecksNew, ComponentsWants, IsSysupdateFile, Lists, VerbWants, VerbWantsOf, feature_item, not_featured};

use crate::intent::Intent;
use crate::plan_err::PlanErr;
use crate::updates::{Looked, updates_of};
use crate::updating::{update_to_step, vacuum_step};
use crate::version_items::version_items;
use ext_choice::{Choice, choose};
use ext_cmd::{Answer, FeatureItem, FeatureItems, Refusal, UpdateVerb};
use ext_configs::components;
use ext_depot::Depot;
use ext_feature::{Feature, Features, FeaturesErr, features};
use ext_host::{Held, Host, Shelf};
use ext_text::OutOfMemory;
use ext_transfer::Component;
use ext_tree::Tree;
use ext_update::Updates;
use ext_view::base_of;
use std::alloc::Global;

/// What `sysupdate` wants of a host, by what its base has, what the shelf gives of its files and what the depot lists.
///
/// # Errors
/// A file that the shelf does not give, for the cause that it has, a fault of the depot, only where it counted one, and out of
/// memory.
pub(crate) fn update_step<P: Depot, H: Shelf>(
    alloc: Global,
    host: &Host,
    component: Option<&Component>,
    verb: &UpdateVerb,
    depot: &mut P,
    shelf: &mut H,
) -> Result<Intent, PlanErr>
    requires valid { IsValidHost host.now }
    requires serves { ServesHost (H.serves shelf.old) host.now }
    ensures wants { IfOk result (VerbWants host.now (H.told shelf.old) (P.state depot.old).contents
        (option_copied component.entry) verb.now) }
    ensures kept { IsKept (P.state depot.old) (P.state depot.new) }
    ensures stays { H.stays shelf.old shelf.new }
    ensures count { H.faults shelf.old ≤ H.faults shelf.new }
    ensures cause { IfErr result (StepCause (IsSysupdateFile host.now (option_copied component.entry) verb.now) host.now (H.told shelf.old)
        (H.faults shelf.old) (H.faults shelf.new) (P.state depot.old).faults (P.state depot.new).faults) }
{
    let base = base_of(host)?;
    match verb {
        UpdateVerb::List => list_step(alloc, host, &base, component, depot, shelf),
        UpdateVerb::CheckNew => check_new_step(alloc, host, &base, component, depot, shelf),
        UpdateVerb::Update { version } => {
            update_to_step(
                alloc,
                host,
                &base,
                component,
                version.as_ref(),
                depot,
                shelf,
            )
        }
        UpdateVerb::Vacuum => vacuum_step(alloc, host, &base, component, shelf),
        UpdateVerb::Features => features_step(alloc, host, &base, component, shelf),
    }
}

// What `list` wants.
fn list_step<P: Depot, H: Shelf>(
    alloc: Global,
    host: &Host,
    base: &Tree<Held>,
    component: Option<&Component>,
    depot: &mut P,
    shelf: &mut H,
) -> Result<Intent, PlanErr>
    requires base { IsBaseTree host.now base.now }
    requires serves { ServesAll (H.serves shelf.old) base.now }
    ensures wants { IfOk result (VerbWantsOf (H.told shelf.old) (P.state depot.old).contents host.now base.now
        (option_copied component.entry) verbs.List) }
    ensures kept { IsKept (P.state depot.old) (P.state depot.new) }
    ensures stays { H.stays shelf.old shelf.new }
    ensures count { H.faults shelf.old ≤ H.faults shelf.new }
    ensures cause { IfErr result (StepCause (IsUpdateFile base.now (option_copied component.entry)) host.now (H.told shelf.old)
        (H.faults shelf.old) (H.faults shelf.new) (P.state depot.old).faults (P.state depot.new).faults) }
{
    match updates_of(alloc, host, base, component, depot, shelf) {
        Ok(Looked::Found(updates)) => Ok(listed(alloc, &updates)?),
        Ok(Looked::Refused(refusal)) => Ok(Intent::Refuses(refusal)),
        Err(failed) => Err(failed),
    }
}

// Each version that is known.
fn listed(alloc: Global, updates: &Updates) -> Result<Intent, OutOfMemory>
    ensures { IfOk result (Lists updates.now) }
{
    let items = version_items(alloc, updates)?;
    Ok(Intent::Answers(Answer::Versions(items)))
}

// What `check-new` wants.
fn check_new_step<P: Depot, H: Shelf>(
    alloc: Global,
    host: &Host,
    base: &Tree<Held>,
    component: Option<&Component>,
    depot: &mut P,
    shelf: &mut H,
) -> Result<Intent, PlanErr>
    requires serves { ServesAll (H.serves shelf.old) base.now }
    requires base { IsBaseTree host.now base.now }
    ensures wants { IfOk result (VerbWantsOf (H.told shelf.old) (P.state depot.old).contents host.now base.now
        (option_copied component.entry) verbs.CheckNew) }
    ensures kept { IsKept (P.state depot.old) (P.state depot.new) }
    ensures stays { H.stays shelf.old shelf.new }
    ensures count { H.faults shelf.old ≤ H.faults shelf.new }
    ensures cause { IfErr result (StepCause (IsUpdateFile base.now (option_copied component.entry)) host.now (H.told shelf.old)
        (H.faults shelf.old) (H.faults shelf.new) (P.state depot.old).faults (P.state depot.new).faults) }
{
    match updates_of(alloc, host, base, component, depot, shelf) {
        Ok(Looked::Found(updates)) => Ok(newest(&updates)?),
        Ok(Looked::Refused(refusal)) => Ok(Intent::Refuses(refusal)),
        Err(failed) => Err(failed),
    }
}

// The version that an update would install.
fn newest(updates: &Updates) -> Result<Intent, OutOfMemory>
    ensures { IfOk result (ChecksNew updates.now) }
{
    match choose(&updates.available, &updates.installed.versions, None) {
        Choice::Install(place) => {
            let version = updates.available.as_slice()[place].copy()?;
            Ok(Intent::Answers(Answer::Version(version.into_text())))
        }
        Choice::NoneNewer => Ok(Intent::Refuses(Refusal::NoneNewer)),
        Choice::Present | Choice::NoSuch => unreachable!(),
    }
}

// What `features` wants.
fn features_step<H: Shelf>(
    alloc: Global,
    host: &Host,
    base: &Tree<Held>,
    component: Option<&Component>,
    shelf: &mut H,
) -> Result<Intent, PlanErr>
    requires base { IsBaseTree host.now base.now }
    requires serves { ServesAll (H.serves shelf.old) base.now }
    ensures wants { (files : Option Files) → IfOk result (VerbWantsOf (H.told shelf.old) files host.now base.now
        (option_copied component.entry) verbs.Features) }
    ensures stays { H.stays shelf.old shelf.new }
    ensures count { H.faults shelf.old ≤ H.faults shelf.new }
    ensures cause { IfErr result (ViewCause (IsFeatureFile base.now (option_copied component.entry)) host.now (H.told shelf.old)
        (H.faults shelf.old) (H.faults shelf.new)) }
{
    match features(alloc, base, component, shelf) {
        Ok(features) => {
            let items = feature_items(alloc, features)?;
            Ok(Intent::Answers(Answer::Features(items)))
        }
        Err(failed) => not_featured(failed),
    }
}

// How it is told that features are not known.
fn not_featured(failed: FeaturesErr) -> Result<Intent, PlanErr>
    ensures { result ≡ not_featured failed }
{
    match failed {
        FeaturesErr::OutOfMemory => Err(PlanErr::OutOfMemory),
        FeaturesErr::BadFeature { file, line, why } => {
            Ok(Intent::Refuses(Refusal::BadFeature { line, why, file }))
        }
        FeaturesErr::Shelf(failed) => Err(PlanErr::Shelf(failed)),
    }
}

// What is said of features.
fn feature_items(alloc: Global, features: Features) -> Result<FeatureItems, OutOfMemory>
    ensures { IfOk result (λ items. items ≡ map feature_item features) }
{
    let mut items = Vec::with_capacity(alloc, features.len())?;
    for feature in features.into_vec() {
        items.push(feature_item(feature))?;
    }
    Ok(FeatureItems::from_vec(items))
}

// What is said of a feature.
fn feature_item(feature: Feature) -> FeatureItem
    ensures { result ≡ feature_item feature }
{
    let Feature { name, on } = feature;
    FeatureItem { name, on }
}

/// What `components` wants of a host, by what its base has.
///
/// # Errors
/// Out of memory alone.
pub(crate) fn components_step(alloc: Global, host: &Host) -> Result<Intent, OutOfMemory>
    requires { IsValidHost host.now }
    ensures { IfOk result (ComponentsWants host.now) }
{
    let base = base_of(host)?;
    let names = components(alloc, &base)?;
    Ok(Intent::Answers(Answer::Components(names)))
}
