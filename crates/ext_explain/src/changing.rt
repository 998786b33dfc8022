// What a refresh would change.
ghost use Rattle.std.specs.Prelude.{◌≤◌, IfOk};
ghost use Rattle.ext_host.specs.Planning.{ServesHost};
ghost use Rattle.ext_host.specs.Valid.{IsValidHost};
ghost use Rattle.ext_changes.specs.Changes.{AreChanges};
ghost use Rattle.ext_view.specs.Inside.{inside};
ghost use Rattle.ext_explain.specs.Changed.{AreChangesOf};
ghost use Rattle.ext_explain.specs.ViewChanges.{TellsChanges, stamp_held};

use ext_changes::{Changes, changes, owned};
use ext_host::{Host, Plan, Shelf};
use ext_text::{Extension, Name, OutOfMemory};
use ext_view::{Merge, ViewErr, entries_inside, hierarchies_of, refresh};
use std::alloc::Global;

/// The changes from the base of a host to what [`refresh`] with the same `force` would show now, at and below the hierarchies
/// of the class. Where nothing fits there are none. The view is planned, and nothing is kept of the plan.
///
/// # Errors
/// As for [`refresh`].
///
/// Whatever the answer, the shelf tells the same afterwards.
pub fn view_changes<H: Shelf>(
    alloc: Global,
    host: &Host,
    class: Extension,
    force: bool,
    shelf: &mut H,
) -> Result<Changes, ViewErr>
    requires valid { IsValidHost host.now }
    requires serves { ServesHost (H.serves shelf.old) host.now }
    ensures gives { TellsChanges (H.told shelf.old) (H.faults shelf.old) (H.faults shelf.new) host.now class force result }
    ensures stays { H.stays shelf.old shelf.new }
    ensures count { H.faults shelf.old ≤ H.faults shelf.new }
{
    let merge = refresh(alloc, host, class, force, shelf)?;
    Ok(changes_of(alloc, hierarchies_of(host, class).as_slice(), merge)?)
}

// What a merge changes at the hierarchies: nothing where it merges no image, and else what its host shows over what lies
// under the view, which is the base.
fn changes_of(alloc: Global, hierarchies: &[Name], merge: Merge) -> Result<Changes, OutOfMemory>
    ensures { IfOk result (AreChangesOf hierarchies.now merge) }
{
    let Merge { plan, names } = merge;
    if names.is_empty() {
        return Ok(Changes::new(alloc));
    }
    match plan {
        None => Ok(Changes::new(alloc)),
        Some(Plan { next }) => changes_over(alloc, hierarchies, next),
    }
}

// What a host shows at the hierarchies over what lies under the view there.
fn changes_over(alloc: Global, hierarchies: &[Name], host: Host) -> Result<Changes, OutOfMemory>
    ensures { IfOk result (AreChanges stamp_held stamp_held (inside hierarchies.now host.lower) (inside hierarchies.now host.root)) }
{
    let Host { root, lower, .. } = host;
    let earlier = entries_inside(lower, hierarchies);
    let later = entries_inside(root, hierarchies);
    let found = changes(alloc, &earlier, &later)?;
    owned(alloc, found.as_slice())
}
