// The items of what is written, and the paths that they touch.
ghost use Rattle.std.specs.Prelude.{◌≡◌, map, IfOk};
ghost use Rattle.std.specs.List.{filter};
ghost use Rattle.ext_update.specs.Drafts.{AreItems, IsPathWithin, Touches, arrives_at};
ghost use Rattle.ext_update.specs.Stages.{is_within_limits};

use crate::draft::{Arrival, CurrentLink, Draft};
use ext_choice::Division;
use ext_text::{OutOfMemory, Path, PathErr, Paths, SortedPaths};
use ext_updated::{Items, append_copies};
use std::alloc::Global;

// The items: what is written, and the instances that go and those that stay.
pub(crate) fn items_of(
    alloc: Global,
    draft: &Draft,
    division: Division,
) -> Result<Items, OutOfMemory>
    ensures { IfOk result (AreItems draft.now division) }
{
    let resources = paths_within(alloc, draft.arrivals.as_slice())?;
    let links = link_paths(alloc, draft.links.as_slice())?;
    Ok(Items {
        resources: Paths::from_vec(resources),
        links: Paths::from_vec(links),
        removed: division.removed,
        staying: division.staying,
    })
}

// Where the resources go whose paths are within the limits.
fn paths_within(alloc: Global, arrivals: &[Arrival]) -> Result<Vec<Path>, OutOfMemory>
    ensures { IfOk result (λ paths. paths.items ≡ filter is_within_limits (map arrives_at arrivals.now)) }
{
    let mut paths = Vec::new(alloc);
    'arrivals: for arrival in arrivals {
        if let Some(path) = path_within(arrival)? {
            paths.push(path)?;
        }
    }
    Ok(paths)
}

// Where a resource goes, where that is within the limits.
fn path_within(arrival: &Arrival) -> Result<Option<Path>, OutOfMemory>
    ensures { IfOk result (IsPathWithin (arrives_at arrival.now)) }
{
    match arrival.target.child(&arrival.name) {
        Ok(path) => Ok(Some(path)),
        Err(PathErr::OutOfMemory) => Err(OutOfMemory),
        Err(PathErr::TooLong | PathErr::TooDeep) => Ok(None),
        Err(PathErr::BadName) => unreachable!(),
    }
}

// Where links are set.
fn link_paths(alloc: Global, links: &[CurrentLink]) -> Result<Vec<Path>, OutOfMemory>
    ensures { IfOk result (λ paths. paths.items ≡ map (λ link. link.path) links.now) }
{
    let mut paths = Vec::with_capacity(alloc, links.len())?;
    'links: for link in links {
        paths.push(link.path.copy()?)?;
    }
    Ok(paths)
}

// The paths that are written or removed, in path order.
pub(crate) fn touched_by(alloc: Global, items: &Items) -> Result<SortedPaths, OutOfMemory>
    ensures { IfOk result (Touches items.now) }
{
    let mut paths = Vec::new(alloc);
    append_copies(&mut paths, items.resources.as_slice())?;
    append_copies(&mut paths, items.links.as_slice())?;
    append_copies(&mut paths, items.removed.as_slice())?;
    Ok(SortedPaths::of(paths))
}
