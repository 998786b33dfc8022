// The commands `portable`.
ghost use Rattle.std.specs.Prelude.{◌≡◌, ◌≤◌, IfErr, IfOk};
ghost use Rattle.ext_host.specs.Planning.{ServesHost};
ghost use Rattle.ext_host.specs.Valid.{IsValidHost};
ghost use Rattle.ext_cmd.specs.Portable.{IsPortCommand};
ghost use Rattle.ext_cmd.specs.declared.answer.Answer.TheVariants.{Detached};
ghost use Rattle.ext_cmd.specs.declared.portable.PortCommand.TheVariants as commands;
ghost use Rattle.ext_intents.specs.Causes.{ViewCause};
ghost use Rattle.ext_intents.specs.Portable.{DetachWants, InspectWants, IsServiceFile, PortWants, ServicesWants};
ghost use Rattle.ext_intents.specs.Portable.{is_attached_intent, not_inspected};
ghost use Rattle.ext_intents.specs.declared.intent.Intent.TheVariants.{Changes};

use crate::attaching::attach_step;
use crate::intent::Intent;
use crate::plan_err::PlanErr;
use crate::service_items::service_items;
use ext_attached::{DetachErr, detach, state_of};
use ext_cmd::{Answer, PortCommand, Refusal};
use ext_find::find;
use ext_host::{Host, Plan, Shelf};
use ext_text::{Class, Name, Names, OutOfMemory};
use ext_units::{Image, InspectErr, inspect};
use ext_view::base_of;
use std::alloc::Global;

/// What `portable` wants of a host, by what its base has, what is attached, and what the shelf gives of release files.
///
/// # Errors
/// A file that the shelf does not give, for the cause that it has, and out of memory.
pub(crate) fn port_step<H: Shelf>(
    alloc: Global,
    host: &Host,
    command: &PortCommand,
    shelf: &mut H,
) -> Result<Intent, PlanErr>
    requires valid { IsValidHost host.now }
    requires formed { IsPortCommand command.now }
    requires serves { ServesHost (H.serves shelf.old) host.now }
    ensures wants { IfOk result (PortWants host.now (H.told shelf.old) command.now) }
    ensures stays { H.stays shelf.old shelf.new }
    ensures count { H.faults shelf.old ≤ H.faults shelf.new }
    ensures cause { IfErr result (ViewCause (IsServiceFile host.now command.now) host.now (H.told shelf.old) (H.faults shelf.old)
        (H.faults shelf.new)) }
{
    match command {
        PortCommand::List => Ok(list_step(alloc, host)?),
        PortCommand::Inspect { image, prefixes } => {
            inspect_step(alloc, host, image, prefixes, shelf)
        }
        PortCommand::IsAttached { name } => Ok(is_attached_step(host, name)),
        PortCommand::Attach(words) => attach_step(alloc, host, words, false, shelf),
        PortCommand::Detach { name } => Ok(detach_step(alloc, host, name)?),
        PortCommand::Reattach(words) => attach_step(alloc, host, words, true, shelf),
    }
}

// What `list` wants.
fn list_step(alloc: Global, host: &Host) -> Result<Intent, OutOfMemory>
    requires { IsValidHost host.now }
    ensures { IfOk result (ServicesWants host.now) }
{
    let base = base_of(host)?;
    let found = find(alloc, &base, Class::Portable, host.arch, &Names::new(alloc))?;
    let items = service_items(alloc, host.attached.as_slice(), found)?;
    Ok(Intent::Answers(Answer::Services(items)))
}

// What `inspect` wants.
fn inspect_step<H: Shelf>(
    alloc: Global,
    host: &Host,
    image: &Image,
    prefixes: &Names,
    shelf: &mut H,
) -> Result<Intent, PlanErr>
    requires valid { IsValidHost host.now }
    requires serves { ServesHost (H.serves shelf.old) host.now }
    ensures wants { IfOk result (InspectWants host.now (H.told shelf.old) image.now prefixes.now) }
    ensures stays { H.stays shelf.old shelf.new }
    ensures count { H.faults shelf.old ≤ H.faults shelf.new }
    ensures cause { IfErr result (ViewCause (IsServiceFile host.now (commands.Inspect image.now prefixes.now)) host.now
        (H.told shelf.old) (H.faults shelf.old) (H.faults shelf.new)) }
{
    let base = base_of(host)?;
    match inspect(alloc, &base, host.arch, image, prefixes, shelf) {
        Ok(told) => Ok(Intent::Answers(Answer::Inspected(told))),
        Err(failed) => Ok(Intent::Refuses(not_inspected(failed)?)),
    }
}

// How it is told that an image is not inspected.
fn not_inspected(failed: InspectErr) -> Result<Refusal, PlanErr>
    ensures { result ≡ not_inspected failed }
{
    match failed {
        InspectErr::OutOfMemory => Err(PlanErr::OutOfMemory),
        InspectErr::NoSuchImage => Ok(Refusal::NoSuchImage),
        InspectErr::NotPortable => Ok(Refusal::NotPortable),
        InspectErr::BadRelease { line } => Ok(Refusal::BadRelease { line }),
        InspectErr::PrefixForbidden { prefix } => Ok(Refusal::PrefixForbidden { prefix }),
        InspectErr::NoUnits => Ok(Refusal::NoUnits),
        InspectErr::Shelf(failed) => Err(PlanErr::Shelf(failed)),
    }
}

// What `is-attached` wants.
fn is_attached_step(host: &Host, name: &Name) -> Intent
    ensures { result ≡ is_attached_intent host.now name.now }
{
    Intent::Answers(Answer::State(state_of(host, name.bytes())))
}

// What `detach` wants.
fn detach_step(alloc: Global, host: &Host, name: &Name) -> Result<Intent, OutOfMemory>
    requires { IsValidHost host.now }
    ensures { IfOk result (DetachWants host.now name.now) }
{
    match detach(alloc, host, name.bytes()) {
        Ok(plan) => Ok(detached(plan)),
        Err(DetachErr::OutOfMemory) => Err(OutOfMemory),
        Err(DetachErr::NotAttached) => Ok(Intent::Refuses(Refusal::NotAttached)),
        Err(DetachErr::ReadOnly { path }) => Ok(Intent::Refuses(Refusal::ReadOnly { path })),
    }
}

// The host without what is detached.
fn detached(plan: Plan) -> Intent
    ensures { result ≡ Changes plan.next Detached }
{
    Intent::Changes(plan.next, Answer::Detached)
}
