// The commands `portable attach` and `portable reattach`.
ghost use Rattle.std.specs.Prelude.{◌≡◌, ◌≢◌, ◌<◌, ◌≤◌, [], length, slice_get, Some, IfErr, IfOk};
ghost use Rattle.std.specs.List.{AllByRecursion};
ghost use Rattle.ext_host.specs.Planning.{IsPlannedHost, ServesHost};
ghost use Rattle.ext_host.specs.Valid.{IsValidHost};
ghost use Rattle.ext_port.specs.Given.{IsAsked};
ghost use Rattle.ext_port.specs.Wants.{Attaches, BarMemory};
ghost use Rattle.ext_portext.specs.Wants.{AttachesExtended, UnlessMemory};
ghost use Rattle.ext_cmd.specs.Portable.{AreAttachWords, ask_of, extensions_of};
ghost use Rattle.ext_intents.specs.Causes.{ViewCause};
ghost use Rattle.ext_intents.specs.Portable.{AskWants, AttachWants, IsAskFile, NotExtended, TellsOfList, attached_intent, not_attached};

use crate::intent::Intent;
use crate::plan_err::PlanErr;
use ext_added::Ask;
use ext_cmd::{Answer, AttachWords, Refusal, ask_of, extensions_of};
use ext_host::{Host, Shelf};
use ext_port::{Attach, PortErr, attach_image};
use ext_portext::{Extensions, PortExtErr, attach_images};
use ext_units::Image;
use std::alloc::Global;

/// What `attach` and, `again`, `reattach` want of a host.
///
/// # Errors
/// A file that the shelf does not give, for the cause that it has, and out of memory.
pub(crate) fn attach_step<H: Shelf>(
    alloc: Global,
    host: &Host,
    words: &AttachWords,
    again: bool,
    shelf: &mut H,
) -> Result<Intent, PlanErr>
    requires valid { IsValidHost host.now }
    requires formed { AreAttachWords words.now }
    requires serves { ServesHost (H.serves shelf.old) host.now }
    ensures wants { IfOk result (AttachWants host.now (H.told shelf.old) again words.now) }
    ensures stays { H.stays shelf.old shelf.new }
    ensures count { H.faults shelf.old ≤ H.faults shelf.new }
    ensures cause { IfErr result (ViewCause (IsAskFile host.now again (ask_of words.now) (extensions_of words.now)) host.now
        (H.told shelf.old) (H.faults shelf.old) (H.faults shelf.new)) }
{
    let ask = ask_of(alloc, words)?;
    let extensions = extensions_of(alloc, words)?;
    if extensions.is_empty() {
        attach_alone(alloc, host, &ask, again, shelf)
    } else {
        attach_with(alloc, host, &ask, extensions, again, shelf)
    }
}

// What is wanted where there are no extensions.
fn attach_alone<H: Shelf>(
    alloc: Global,
    host: &Host,
    ask: &Ask,
    again: bool,
    shelf: &mut H,
) -> Result<Intent, PlanErr>
    requires valid { IsValidHost host.now }
    requires asked { IsAsked ask.now.image }
    requires serves { ServesHost (H.serves shelf.old) host.now }
    ensures wants { IfOk result (AskWants host.now (H.told shelf.old) again ask.now []) }
    ensures stays { H.stays shelf.old shelf.new }
    ensures count { H.faults shelf.old ≤ H.faults shelf.new }
    ensures cause { IfErr result (ViewCause (IsAskFile host.now again ask.now []) host.now (H.told shelf.old) (H.faults shelf.old)
        (H.faults shelf.new)) }
{
    match attach_image(alloc, host, ask, again, shelf) {
        Ok(attach) => Ok(attached(attach)),
        Err(failed) => Ok(Intent::Refuses(not_attached(failed)?)),
    }
}

// The host with what is attached.
fn attached(attach: Attach) -> Intent
    ensures { result ≡ attached_intent attach }
{
    let Attach { plan, units } = attach;
    Intent::Changes(plan.next, Answer::Attached(units))
}

// How it is told that nothing is attached.
fn not_attached(failed: PortErr) -> Result<Refusal, PlanErr>
    ensures { result ≡ not_attached failed }
{
    match failed {
        PortErr::OutOfMemory => Err(PlanErr::OutOfMemory),
        PortErr::NoSuchImage => Ok(Refusal::NoSuchImage),
        PortErr::AlreadyAttached => Ok(Refusal::AlreadyAttached),
        PortErr::NotAttached => Ok(Refusal::NotAttached),
        PortErr::NotPortable => Ok(Refusal::NotPortable),
        PortErr::BadRelease { line } => Ok(Refusal::BadRelease { line }),
        PortErr::PrefixForbidden { prefix } => Ok(Refusal::PrefixForbidden { prefix }),
        PortErr::NoUnits => Ok(Refusal::NoUnits),
        PortErr::NoProfile => Ok(Refusal::NoProfile),
        PortErr::ReadOnly { path } => Ok(Refusal::ReadOnly { path }),
        PortErr::UnitExists { path } => Ok(Refusal::UnitExists { path }),
        PortErr::NotDirectory { path } => Ok(Refusal::NotDirectory { path }),
        PortErr::Limit { which } => Ok(Refusal::Limit { which }),
        PortErr::Shelf(failed) => Err(PlanErr::Shelf(failed)),
    }
}

// What is wanted where there are extensions.
fn attach_with<H: Shelf>(
    alloc: Global,
    host: &Host,
    ask: &Ask,
    extensions: Extensions,
    again: bool,
    shelf: &mut H,
) -> Result<Intent, PlanErr>
    requires valid { IsValidHost host.now }
    requires asked { IsAsked ask.now.image }
    requires all_asked { AllByRecursion IsAsked extensions }
    requires some { extensions ≢ [] }
    requires serves { ServesHost (H.serves shelf.old) host.now }
    ensures wants { IfOk result (AskWants host.now (H.told shelf.old) again ask.now extensions) }
    ensures stays { H.stays shelf.old shelf.new }
    ensures count { H.faults shelf.old ≤ H.faults shelf.new }
    ensures cause { IfErr result (ViewCause (IsAskFile host.now again ask.now extensions) host.now (H.told shelf.old)
        (H.faults shelf.old) (H.faults shelf.new)) }
{
    match attach_images(alloc, host, ask, &extensions, again, shelf) {
        Ok(attach) => Ok(attached(attach)),
        Err(failed) => Ok(Intent::Refuses(not_extended(extensions, failed)?)),
    }
}

// How it is told that nothing is attached with these extensions: the one that is told of goes as it was given.
fn not_extended(extensions: Extensions, failed: PortExtErr) -> Result<Refusal, PlanErr>
    requires { TellsOfList extensions failed }
    ensures { NotExtended extensions failed result }
{
    match failed {
        PortExtErr::OutOfMemory => Err(PlanErr::OutOfMemory),
        PortExtErr::Port(failed) => not_attached(failed),
        PortExtErr::NoExtension { at } => {
            let extension = extension_at(extensions, at);
            Ok(Refusal::NoExtension { extension })
        }
        PortExtErr::Extension { at, why } => {
            let extension = extension_at(extensions, at);
            Ok(Refusal::Extension { extension, why })
        }
        PortExtErr::Limit { which } => Ok(Refusal::Limit { which }),
    }
}

// The extension at this place of the list, counted from 0.
fn extension_at(extensions: Extensions, at: u64) -> Image
    requires { at < length extensions }
    ensures { slice_get extensions at ≡ Some result }
{
    let mut images = extensions.into_vec();
    images.swap_remove(at as usize)
}
