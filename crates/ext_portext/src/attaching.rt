ghost use Rattle.std.specs.Prelude.{◌≡◌, ◌≤◌, IfOk};
ghost use Rattle.std.specs.List.{AllByRecursion};
ghost use Rattle.ext_host.specs.Planning.{IsBaseTree, IsPlannedHost, ServesAll, ServesHost};
ghost use Rattle.ext_host.specs.Valid.{IsValidHost};
ghost use Rattle.ext_port.specs.Given.{AreFilesOf, IsAsked, IsBodyFor};
ghost use Rattle.ext_port.specs.Starting.{start_host};
ghost use Rattle.ext_portext.specs.Wants.{AttachesExtended, ExtensionsWant, FittingExtensionsWant, UnlessMemory};

use crate::errors::PortExtErr;
use crate::extending::{Extending, Extensions};
use crate::lines::extension_lines;
use crate::reading::{Look, read_all};
use crate::unit_tree::unit_tree;
use ext_added::Ask;
use ext_attached::without;
use ext_host::{Held, Host, Shelf};
use ext_port::{Attach, PortErr, attach_body};
use ext_tree::Tree;
use ext_units::{Body, body_of};
use std::alloc::Global;

/// The plan of the host with the image attached that is asked for, with extensions: its units are looked for in the image and in the
/// extensions over it, the last on top, and each drop-in that tells a service its image names the extensions too. After
/// portablectl(1), command `attach` with the option `--extension=`. Or, `again`, with the image attached anew: all that [`without`]
/// takes away goes, and then it is attached, and the image and its extensions are looked for in the host without that. After command
/// `reattach`.
///
/// A named extension is a system extension of the host. One at a path is the directory to which the path leads. Each has to fit the
/// image as a system extension of scope `portable` fits a host.
///
/// # Errors
/// The first of these:
///
/// - `Port` with `NoSuchImage`, `NotPortable`, `BadRelease` or `Shelf`, as [`body_of`](ext_units::body_of) answers.
/// - `NoExtension` with the place of the first extension that is not there, and `Extension` with that of the first one that does not
///   fit, whichever comes first. `Port` with `Shelf` where the shelf does not give the release file of one.
/// - `Limit` with `Entries`, where the tree of the units would have more than 262,144 entries.
/// - `Port` with what [`attach_body`] answers.
/// - `OutOfMemory`.
///
/// Whatever the answer, the shelf tells the same afterwards.
pub fn attach_images<H: Shelf>(
    alloc: Global,
    host: &Host,
    ask: &Ask,
    extensions: &Extensions,
    again: bool,
    shelf: &mut H,
) -> Result<Attach, PortExtErr>
    requires valid { IsValidHost host.now }
    requires asked { IsAsked ask.now.image }
    requires all_asked { AllByRecursion IsAsked extensions.now }
    requires serves { ServesHost (H.serves shelf.old) host.now }
    ensures gives { UnlessMemory (AttachesExtended (H.told shelf.old) (H.faults shelf.old) (H.faults shelf.new) again
        host.now ask.now extensions.now) result }
    ensures next { IfOk result (λ attach. IsPlannedHost host.now attach.plan.next) }
    ensures stays { H.stays shelf.old shelf.new }
    ensures count { H.faults shelf.old ≤ H.faults shelf.new }
{
    if again {
        let start = without(alloc, host, &ask.image)?;
        attach_from(alloc, host, &start, ask, extensions, true, shelf)
    } else {
        attach_from(alloc, host, host, ask, extensions, false, shelf)
    }
}

// The image attached, or attached anew, which is looked for with its extensions in the start.
fn attach_from<H: Shelf>(
    alloc: Global,
    host: &Host,
    start: &Host,
    ask: &Ask,
    extensions: &Extensions,
    again: bool,
    shelf: &mut H,
) -> Result<Attach, PortExtErr>
    requires valid { IsValidHost host.now }
    requires start { start.now ≡ start_host again ask.now.image host.now }
    requires sound { IsValidHost start.now }
    requires asked { IsAsked ask.now.image }
    requires all_asked { AllByRecursion IsAsked extensions.now }
    requires serves { ServesHost (H.serves shelf.old) host.now }
    ensures gives { UnlessMemory (AttachesExtended (H.told shelf.old) (H.faults shelf.old) (H.faults shelf.new) again
        host.now ask.now extensions.now) result }
    ensures next { IfOk result (λ attach. IsPlannedHost host.now attach.plan.next) }
    ensures stays { H.stays shelf.old shelf.new }
    ensures count { H.faults shelf.old ≤ H.faults shelf.new }
{
    let base = start.base()?;
    // `pairs` says of the base that it is a tree.
    let _entries = base.pairs();
    match body_of(alloc, &base, start.arch, &ask.image, shelf) {
        Err(failed) => {
            let failed = PortErr::from(failed);
            Err(PortExtErr::from(failed))
        }
        Ok(body) => attach_read(
            alloc, host, start, &base, ask, &body, extensions, again, shelf,
        ),
    }
}

// The image attached, or attached anew, that was read in the base of the start.
fn attach_read<H: Shelf>(
    alloc: Global,
    host: &Host,
    start: &Host,
    base: &Tree<Held>,
    ask: &Ask,
    body: &Body,
    extensions: &Extensions,
    again: bool,
    shelf: &mut H,
) -> Result<Attach, PortExtErr>
    requires valid { IsValidHost host.now }
    requires start { start.now ≡ start_host again ask.now.image host.now }
    requires base { IsBaseTree start.now base.now }
    requires asked { IsAsked ask.now.image }
    requires body { IsBodyFor start.now ask.now.image body.now }
    requires all_asked { AllByRecursion IsAsked extensions.now }
    requires serves { ServesAll (H.serves shelf.old) base.now }
    ensures gives { UnlessMemory (ExtensionsWant again host.now ask.now (H.told shelf.old) (H.faults shelf.old) (H.faults shelf.new)
        base.now extensions.now body.now) result }
    ensures next { IfOk result (λ attach. IsPlannedHost host.now attach.plan.next) }
    ensures stays { H.stays shelf.old shelf.new }
    ensures count { H.faults shelf.old ≤ H.faults shelf.new }
{
    let look = Look {
        alloc,
        host: start,
        base,
        release: &body.release,
    };
    match read_all(&look, extensions.as_slice(), shelf) {
        Ok(fitting) => attach_fitting(alloc, host, ask, body, fitting.as_slice(), again),
        Err(failed) => Err(failed),
    }
}

// The image attached with extensions that fit.
fn attach_fitting(
    alloc: Global,
    host: &Host,
    ask: &Ask,
    body: &Body,
    extensions: &[Extending],
    again: bool,
) -> Result<Attach, PortExtErr>
    requires valid { IsValidHost host.now }
    requires asked { IsAsked ask.now.image }
    requires body { IsBodyFor (start_host again ask.now.image host.now) ask.now.image body.now }
    requires files { AllByRecursion (λ extending. AreFilesOf (start_host again ask.now.image host.now) extending.tree) extensions.now }
    ensures gives { UnlessMemory (FittingExtensionsWant again host.now ask.now body.now extensions.now) result }
    ensures next { IfOk result (λ attach. IsPlannedHost host.now attach.plan.next) }
{
    let tree = unit_tree(alloc, host.sysext_hier.as_slice(), &body.tree, extensions)?;
    let lines = extension_lines(alloc, extensions)?;
    Ok(attach_body(alloc, host, ask, body, &tree, lines.as_slice(), again)?)
}
