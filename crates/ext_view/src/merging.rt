// The plans of merged hosts.
ghost use Rattle.std.specs.Prelude.{◌≡◌, ◌≤◌, IfOk};
ghost use Rattle.ext_host.specs.Planning.{IsBaseTree, PlansNext, ServesHost};
ghost use Rattle.ext_host.specs.Valid.{IsValidHost};
ghost use Rattle.ext_view.specs.Layering.{AreChosen, GivesPlan, MergesAs};
ghost use Rattle.ext_view.specs.Merging.{GivesNext, Merges, Refreshes};
ghost use Rattle.ext_view.specs.View.{chosen, is_fit, names_of};

use crate::Survey;
use crate::errors::ViewErr;
use crate::hierarchies::is_merged;
use crate::layering::merged;
use crate::outcome::Merge;
use crate::surveyed::{SurveyItem, SurveyKind};
use crate::surveying::{base_of, survey_of};
use crate::unmerging::unmerge;
use ext_host::{Held, Host, Plan, Shelf};
use ext_match::Verdict;
use ext_text::{Extension, Names, OutOfMemory};
use ext_tree::Tree;
use std::alloc::Global;

/// The plan of the merged host: at and below the hierarchies of the class what the images that can be used and fit show over
/// the base, the greatest version on top, and under it the base. The rest of an image is not looked at. With no such image
/// there is no plan. After systemd-sysext(8).
///
/// # Errors
/// The first of these:
///
/// - `Merged` exactly where the class is merged.
/// - What [`survey`](crate::survey) answers.
/// - `Limit` exactly where the merged host would pass a limit, `Entries` where what is seen and what lies under it would
///   have more than 262,144 entries together, and else `Bytes` where their files would have more than 4,294,967,296 bytes.
/// - `OutOfMemory`.
///
/// Whatever the answer, the shelf tells the same afterwards.
pub fn merge<H: Shelf>(
    alloc: Global,
    host: &Host,
    class: Extension,
    force: bool,
    shelf: &mut H,
) -> Result<Merge, ViewErr>
    requires valid { IsValidHost host.now }
    requires serves { ServesHost (H.serves shelf.old) host.now }
    ensures gives { Merges (H.told shelf.old) (H.faults shelf.old) (H.faults shelf.new) host.now class force result }
    ensures next { GivesNext host.now result }
    ensures stays { H.stays shelf.old shelf.new }
    ensures count { H.faults shelf.old ≤ H.faults shelf.new }
{
    if is_merged(host, class) {
        return Err(ViewErr::Merged);
    }
    // To merge is to refresh a host that has no view yet.
    refresh(alloc, host, class, force, shelf)
}

/// The plan of the merged host in the place of the host's view, where it has one: what merging would give of the unmerged
/// host. With no image that can be used and fits it is the unmerged host, and there is no plan exactly where the class is not
/// merged either. A host that is merged has a plan also where nothing would change.
///
/// # Errors
/// As for [`merge`], but never `Merged`.
pub fn refresh<H: Shelf>(
    alloc: Global,
    host: &Host,
    class: Extension,
    force: bool,
    shelf: &mut H,
) -> Result<Merge, ViewErr>
    requires valid { IsValidHost host.now }
    requires serves { ServesHost (H.serves shelf.old) host.now }
    ensures gives { Refreshes (H.told shelf.old) (H.faults shelf.old) (H.faults shelf.new) host.now class force result }
    ensures next { GivesNext host.now result }
    ensures stays { H.stays shelf.old shelf.new }
    ensures count { H.faults shelf.old ≤ H.faults shelf.new }
{
    let base = base_of(host)?;
    let survey = survey_of(alloc, host, &base, class, force, shelf)?;
    let items = chosen(survey);
    merge_of(alloc, host, class, base, items.as_slice())
}

/// The images of a survey that can be used and fit, in its order: those that a refresh merges, the lowest first.
pub fn chosen(survey: Survey) -> Vec<SurveyItem>
    ensures { result.items ≡ chosen survey }
{
    let mut items = survey.into_vec();
    items.retain(is_chosen);
    items
}

// Whether the item is an image that can be used and fits.
fn is_chosen(item: &SurveyItem) -> bool
    ensures { result ≡ is_fit item.now.kind }
{
    matches!(item.kind, SurveyKind::Image(Verdict::Fits))
}

// The plan of the host that has this base and these chosen images, and their names.
fn merge_of(
    alloc: Global,
    host: &Host,
    class: Extension,
    base: Tree<Held>,
    items: &[SurveyItem],
) -> Result<Merge, ViewErr>
    requires valid { IsValidHost host.now }
    requires base { IsBaseTree host.now base }
    requires chosen { AreChosen base items.now }
    ensures gives { MergesAs host.now class base items.now result }
    ensures next { GivesNext host.now result }
{
    let names = names_of(alloc, items)?;
    let plan = plan_of(alloc, host, class, base, items)?;
    Ok(Merge { plan, names })
}

// The plan of the host that has this base and these chosen images.
fn plan_of(
    alloc: Global,
    host: &Host,
    class: Extension,
    base: Tree<Held>,
    items: &[SurveyItem],
) -> Result<Option<Plan>, ViewErr>
    requires valid { IsValidHost host.now }
    requires base { IsBaseTree host.now base }
    requires chosen { AreChosen base items.now }
    ensures gives { GivesPlan host.now class base items.now result }
    ensures next { IfOk result (PlansNext host.now) }
{
    if items.is_empty() {
        return Ok(unmerge(alloc, host, class)?);
    }
    let next = merged(alloc, host, class, base, items)?;
    Ok(Some(Plan { next }))
}

// The names of some items.
pub(crate) fn names_of(alloc: Global, items: &[SurveyItem]) -> Result<Names, OutOfMemory>
    ensures { IfOk result (λ names. names ≡ names_of items.now) }
{
    let mut names = Vec::with_capacity(alloc, items.len())?;
    for item in items {
        names.push(item.name.copy()?)?;
    }
    Ok(Names::from_vec(names))
}
