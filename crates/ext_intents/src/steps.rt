// The steps of all commands that may be carried out over a store: those that may stand in a line of a batch.
ghost use Rattle.std.specs.Prelude.{◌≤◌, IsTrue, IfOk, IfErr};
ghost use Rattle.ext_depot.specs.Depot.{IsKept};
ghost use Rattle.ext_cmd.specs.Line.{may_be_line};
ghost use Rattle.ext_cmd.specs.Words.{IsWellFormed};
ghost use Rattle.ext_host.specs.Valid.{IsValidHost};
ghost use Rattle.ext_host.specs.Planning.{ServesHost};
ghost use Rattle.ext_intents.specs.Causes.{IsStepFile, StepCause};
ghost use Rattle.ext_intents.specs.Marks.{AreBefore};
ghost use Rattle.ext_intents.specs.Step.{WantsFirst, WantsOf};

use crate::cat::cat_step;
use crate::compare::compare_step;
use crate::import::import_step;
use crate::init::init_step;
use crate::intent::Intent;
use crate::marks::{forget_step, history_changes_step, history_step, mark_step, rollback_step};
use crate::migrate::migrate_step;
use crate::plan_err::PlanErr;
use crate::portable::port_step;
use crate::remove::remove_step;
use crate::sysupdate::{components_step, update_step};
use crate::tree::tree_step;
use crate::views::view_step;
use ext_cmd::{Command, Refusal};
use ext_depot::Depot;
use ext_host::{Host, Shelf};
use ext_text::{Extension, OutOfMemory};
use std::alloc::Global;

/// What a command wants where there is no store.
///
/// # Errors
/// Out of memory alone.
pub fn first_step(alloc: Global, command: &Command) -> Result<Intent, OutOfMemory>
    requires { IsTrue (may_be_line command.now) }
    ensures { IfOk result (WantsFirst command.now) }
{
    match command {
        Command::Init {
            arch,
            scope,
            hierarchies,
        } => init_step(alloc, *arch, *scope, hierarchies),
        Command::Compare(a, b) => Ok(compare_step(a.bytes(), b.bytes())),
        Command::Layer | Command::Batch | Command::Sample { .. } => unreachable!(),
        _ => Ok(Intent::Refuses(Refusal::NoStore)),
    }
}

/// What a command wants of the host that a store has, in the generation of this number, whose text has its newest form or not.
/// Each mark of the host is of a generation before that one.
///
/// # Errors
/// - A fault of the depot, only where it counted one.
/// - A file of the host that the command reads and the shelf does not give, for the cause that it has.
/// - Out of memory.
///
/// Whatever the answer, the depot and the shelf tell the same afterwards.
pub fn step<P: Depot, H: Shelf>(
    alloc: Global,
    command: &Command,
    host: &Host,
    number: u32,
    newest: bool,
    depot: &mut P,
    shelf: &mut H,
) -> Result<Intent, PlanErr>
    requires line { IsTrue (may_be_line command.now) }
    requires formed { IsWellFormed command.now }
    requires valid { IsValidHost host.now }
    requires before { AreBefore number host.now.past }
    requires serves { ServesHost (H.serves shelf.old) host.now }
    ensures wants { IfOk result (WantsOf (record { host = host.now; number = number; newest = newest; told = H.told shelf.old })
        (P.state depot.old).contents command.now) }
    ensures kept { IsKept (P.state depot.old) (P.state depot.new) }
    ensures stays { H.stays shelf.old shelf.new }
    ensures count { H.faults shelf.old ≤ H.faults shelf.new }
    ensures cause { IfErr result (StepCause (IsStepFile host.now command.now) host.now (H.told shelf.old) (H.faults shelf.old)
        (H.faults shelf.new) (P.state depot.old).faults (P.state depot.new).faults) }
{
    match command {
        Command::Init { .. } => Ok(Intent::Refuses(Refusal::StoreExists)),
        Command::ImportFs { resource, path } => import_step(alloc, host, resource, path, depot),
        Command::Remove { path } => Ok(remove_step(host, path)?),
        Command::Sysext(view) => view_step(alloc, host, Extension::Sysext, view, shelf),
        Command::Confext(view) => view_step(alloc, host, Extension::Confext, view, shelf),
        Command::Tree { path } => Ok(tree_step(alloc, host, path)?),
        Command::Cat { path } => Ok(cat_step(host, path)?),
        Command::Check => Ok(Intent::Checks),
        Command::Migrate => Ok(migrate_step(host, newest)?),
        Command::Compare(first, second) => Ok(compare_step(first.bytes(), second.bytes())),
        Command::Sysupdate { component, verb } => {
            update_step(alloc, host, component.as_ref(), verb, depot, shelf)
        }
        Command::Components => Ok(components_step(alloc, host)?),
        Command::Mark { keep } => Ok(mark_step(alloc, host, number, *keep)?),
        Command::History => Ok(history_step(alloc, host)?),
        Command::HistoryChanges { mark } => Ok(history_changes_step(alloc, host, *mark)?),
        Command::Rollback { mark } => Ok(rollback_step(alloc, host, *mark)?),
        Command::Forget { mark } => Ok(forget_step(alloc, host, *mark)?),
        Command::Portable(command) => port_step(alloc, host, command, shelf),
        Command::Layer | Command::Batch | Command::Sample { .. } => unreachable!(),
    }
}
