ghost use Rattle.std.specs.Prelude.{◌≡◌, ◌≤◌, IfOk};
ghost use Rattle.ext_host.specs.Planning.{IsPlannedHost, ServesAll, ServesHost};
ghost use Rattle.ext_host.specs.Valid.{IsValidHost};
ghost use Rattle.ext_units.specs.Image.{IsImageAt};
ghost use Rattle.ext_port.specs.Given.{IsAsked, IsStart};
ghost use Rattle.ext_port.specs.Starting.{start_host};
ghost use Rattle.ext_port.specs.Wants.{Attaches, BarMemory, BodyWants, FitWants};

use crate::attaching::{Attach, attach_from};
use crate::errors::PortErr;
use crate::starting::{Start, start_of, unfit};
use ext_added::Ask;
use ext_attached::without;
use ext_host::{Host, Shelf};
use ext_text::Path;
use ext_units::{body_at, image_at};
use std::alloc::Global;

/// The plan of the host with the image attached that is asked for. After portablectl(1), command `attach`. Or, `again`, with the
/// image attached anew: all that [`without`](ext_attached::without) takes away goes, and then it is attached, and all is looked for
/// in the host without that. After command `reattach`.
///
/// # Errors
/// The first of these:
///
/// - `NoSuchImage` exactly where there is no such image, `again` in the host without those attachments.
/// - `AlreadyAttached` exactly where not `again` and an attachment has its name.
/// - `NotAttached` exactly where `again` and no attachment goes.
/// - `NotPortable`, `BadRelease` and `Shelf` as [`body_at`] answers.
/// - What [`attach_body`](crate::attach_body) answers after these.
///
/// Whatever the answer, the shelf tells the same afterwards.
pub fn attach_image<H: Shelf>(
    alloc: Global,
    host: &Host,
    ask: &Ask,
    again: bool,
    shelf: &mut H,
) -> Result<Attach, PortErr>
    requires valid { IsValidHost host.now }
    requires asked { IsAsked ask.now.image }
    requires serves { ServesHost (H.serves shelf.old) host.now }
    ensures gives { BarMemory (Attaches (H.told shelf.old) (H.faults shelf.old) (H.faults shelf.new) again host.now ask.now) result }
    ensures next { IfOk result (λ attach. IsPlannedHost host.now attach.plan.next) }
    ensures stays { H.stays shelf.old shelf.new }
    ensures count { H.faults shelf.old ≤ H.faults shelf.new }
{
    if again {
        let next = without(alloc, host, &ask.image)?;
        attach_next(alloc, host, &next, ask, true, shelf)
    } else {
        attach_next(alloc, host, host, ask, false, shelf)
    }
}

// The image attached, or attached anew, to the host from which it is.
fn attach_next<H: Shelf>(
    alloc: Global,
    host: &Host,
    next: &Host,
    ask: &Ask,
    again: bool,
    shelf: &mut H,
) -> Result<Attach, PortErr>
    requires next { next.now ≡ start_host again ask.now.image host.now }
    requires planned { IsPlannedHost host.now next.now }
    requires asked { IsAsked ask.now.image }
    requires serves { ServesHost (H.serves shelf.old) host.now }
    ensures gives { BarMemory (Attaches (H.told shelf.old) (H.faults shelf.old) (H.faults shelf.new) again host.now ask.now) result }
    ensures next { IfOk result (λ attach. IsPlannedHost host.now attach.plan.next) }
    ensures stays { H.stays shelf.old shelf.new }
    ensures count { H.faults shelf.old ≤ H.faults shelf.new }
{
    let start = start_of(alloc, host, next, &ask.image, again)?;
    match image_at(alloc, &start.base, start.host.arch, &ask.image)? {
        None => Err(PortErr::NoSuchImage),
        Some(place) => {
            let refusal = unfit(host, &ask.image, again);
            attach_fit(alloc, &start, ask, place, refusal, shelf)
        }
    }
}

// The image at the place attached, unless it may not be.
fn attach_fit<H: Shelf>(
    alloc: Global,
    start: &Start,
    ask: &Ask,
    place: Path,
    refusal: Option<PortErr>,
    shelf: &mut H,
) -> Result<Attach, PortErr>
    requires start { IsStart start.now }
    requires asked { IsAsked ask.now.image }
    requires image { IsImageAt start.now.base start.now.host.now.arch ask.now.image place }
    requires serves { ServesAll (H.serves shelf.old) start.now.base }
    ensures gives { BarMemory (FitWants refusal (BodyWants (H.told shelf.old) (H.faults shelf.old) (H.faults shelf.new)
        start.now.host.now start.now.cut start.now.base ask.now place)) result }
    ensures next { IfOk result (λ attach. IsPlannedHost start.now.host.now attach.plan.next) }
    ensures stays { H.stays shelf.old shelf.new }
    ensures count { H.faults shelf.old ≤ H.faults shelf.new }
{
    match refusal {
        Some(refusal) => Err(refusal),
        None => attach_place(alloc, start, ask, place, shelf),
    }
}

// The image at the place attached.
fn attach_place<H: Shelf>(
    alloc: Global,
    start: &Start,
    ask: &Ask,
    place: Path,
    shelf: &mut H,
) -> Result<Attach, PortErr>
    requires start { IsStart start.now }
    requires asked { IsAsked ask.now.image }
    requires image { IsImageAt start.now.base start.now.host.now.arch ask.now.image place }
    requires serves { ServesAll (H.serves shelf.old) start.now.base }
    ensures gives { BarMemory (BodyWants (H.told shelf.old) (H.faults shelf.old) (H.faults shelf.new)
        start.now.host.now start.now.cut start.now.base ask.now place) result }
    ensures next { IfOk result (λ attach. IsPlannedHost start.now.host.now attach.plan.next) }
    ensures stays { H.stays shelf.old shelf.new }
    ensures count { H.faults shelf.old ≤ H.faults shelf.new }
{
    match body_at(alloc, &start.base, place, shelf) {
        Ok(body) => attach_from(alloc, start, ask, &body, &body.tree, b""),
        Err(failed) => Err(PortErr::from(failed)),
    }
}
