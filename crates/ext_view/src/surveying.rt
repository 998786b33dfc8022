// The survey of a host.
ghost use Rattle.std.specs.Prelude.{◌≤◌, IfOk};
ghost use Rattle.std.specs.List.{AllByRecursion};
ghost use Rattle.ext_host.specs.Valid.{IsValidHost};
ghost use Rattle.ext_host.specs.Planning.{IsBaseTree, ServesAll, ServesHost};
ghost use Rattle.ext_view.specs.Judging.{IsSound, ListsAs};
ghost use Rattle.ext_view.specs.Surveying.{Surveys, SurveysAs};

use crate::Survey;
use crate::errors::ViewErr;
use crate::hierarchies::hierarchies_of;
use crate::judging::{Look, item_of};
use ext_find::{Found, find, host_release};
use ext_host::{Held, Host, Shelf};
use ext_lines::allocated;
use ext_text::{Extension, OutOfMemory};
use ext_tree::Tree;
use std::alloc::Global;

/// What a host has to merge of a class: an item for each image and mask that is found in its base, in the order of versions
/// of the names. Of an image that can be used it tells whether it fits the host, by the release files of both. With `force`
/// each one fits whose release file reads. After systemd-sysext(8).
///
/// # Errors
/// The first of these:
///
/// - `NoHostRelease` exactly where the host has no release file.
/// - `BadHostRelease` exactly where it is faulty, with its first faulty line.
/// - `Shelf` where the shelf does not give the bytes of a release file that is read, the host's or an image's, for the cause
///   that it has.
/// - `OutOfMemory`.
///
/// Whatever the answer, the shelf tells the same afterwards.
pub fn survey<H: Shelf>(
    alloc: Global,
    host: &Host,
    class: Extension,
    force: bool,
    shelf: &mut H,
) -> Result<Survey, ViewErr>
    requires valid { IsValidHost host.now }
    requires serves { ServesHost (H.serves shelf.old) host.now }
    ensures gives { Surveys (H.told shelf.old) (H.faults shelf.old) (H.faults shelf.new) host.now class force result }
    ensures stays { H.stays shelf.old shelf.new }
    ensures count { H.faults shelf.old ≤ H.faults shelf.new }
{
    let base = base_of(host)?;
    survey_of(alloc, host, &base, class, force, shelf)
}

/// The base of a host, as a tree.
///
/// # Errors
/// `OutOfMemory` alone.
pub fn base_of(host: &Host) -> Result<Tree<Held>, OutOfMemory>
    requires { IsValidHost host.now }
    ensures { IfOk result (IsBaseTree host.now) }
{
    let base = host.base()?;
    // `pairs` says of the tree that it is one.
    let _entries = base.pairs();
    Ok(base)
}

/// The survey of a host that has this base, as [`survey`] gives it.
///
/// # Errors
/// As for [`survey`].
pub fn survey_of<H: Shelf>(
    alloc: Global,
    host: &Host,
    base: &Tree<Held>,
    class: Extension,
    force: bool,
    shelf: &mut H,
) -> Result<Survey, ViewErr>
    requires { ServesAll (H.serves shelf.old) base.now }
    ensures gives { SurveysAs (H.told shelf.old) (H.faults shelf.old) (H.faults shelf.new) host.now base.now class force result }
    ensures stays { H.stays shelf.old shelf.new }
    ensures count { H.faults shelf.old ≤ H.faults shelf.new }
{
    let Some(release) = host_release(alloc, base, shelf)? else {
        return Err(ViewErr::NoHostRelease);
    };
    let found = find(
        alloc,
        base,
        class.class(),
        host.arch,
        hierarchies_of(host, class),
    )?;
    let look = Look {
        alloc,
        host,
        base,
        class,
        force,
        release: &release,
    };
    items_of(&look, found, shelf)
}

// What is said of each found item.
fn items_of<H: Shelf>(look: &Look, found: Found, shelf: &mut H) -> Result<Survey, ViewErr>
    requires sound { AllByRecursion (IsSound look.now.base.now look.now.class) found }
    requires serves { ServesAll (H.serves shelf.old) look.now.base.now }
    ensures gives { ListsAs (H.told shelf.old) (H.faults shelf.old) (H.faults shelf.new) look.now.host.now look.now.base.now
        look.now.class look.now.force look.now.release.now found result }
    ensures stays { H.stays shelf.old shelf.new }
    ensures count { H.faults shelf.old ≤ H.faults shelf.new }
{
    let mut items = allocated(Vec::with_capacity(look.alloc, found.len()))?;
    for item in found.into_vec() {
        allocated(items.push(item_of(look, item, shelf)?))?;
    }
    Ok(Survey::from_vec(items))
}
