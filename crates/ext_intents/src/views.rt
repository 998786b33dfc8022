// The commands `sysext` and `confext`.
ghost use Rattle.std.specs.Prelude.{◌≡◌, ◌≤◌, IfErr, IfOk};
ghost use Rattle.std.specs.Option.{option_copied};
ghost use Rattle.ext_host.specs.Host.{merged_names, present};
ghost use Rattle.ext_host.specs.Valid.{IsValidHost};
ghost use Rattle.ext_host.specs.Planning.{ServesHost};
ghost use Rattle.ext_cmd.specs.declared.command.ViewCommand.TheVariants as commands;
ghost use Rattle.ext_cmd.specs.declared.refusal.Refusal.TheVariants.{NoEntry};
ghost use Rattle.ext_intents.specs.Causes.{IsViewFile, ViewCause, refused};
ghost use Rattle.ext_intents.specs.Views.{ChangesWants, ExplainWants, ListWants, MergeWants, RefreshWants, UnmergeWants, ViewWants, planned, status_intent};
ghost use Rattle.ext_intents.specs.declared.intent.Intent.TheVariants.{Refuses};

use crate::intent::Intent;
use crate::plan_err::PlanErr;
use crate::view_items::listed_items;
use ext_cmd::{Answer, Refusal, ViewCommand};
use ext_explain::{ExplainErr, explain, view_changes};
use ext_host::{Host, Plan, Shelf, copy_of_list};
use ext_text::{Extension, Names, OutOfMemory, Path};
use ext_view::{Merge, ViewErr, merge, refresh, survey, unmerge};
use std::alloc::Global;

/// What `sysext` and `confext` want of a host, by what the shelf gives of its release files.
///
/// # Errors
/// A file that the shelf does not give, for the cause that it has, and out of memory.
pub(crate) fn view_step<H: Shelf>(
    alloc: Global,
    host: &Host,
    class: Extension,
    command: &ViewCommand,
    shelf: &mut H,
) -> Result<Intent, PlanErr>
    requires valid { IsValidHost host.now }
    requires serves { ServesHost (H.serves shelf.old) host.now }
    ensures wants { IfOk result (ViewWants host.now (H.told shelf.old) class command.now) }
    ensures stays { H.stays shelf.old shelf.new }
    ensures count { H.faults shelf.old ≤ H.faults shelf.new }
    ensures cause { IfErr result (ViewCause (IsViewFile host.now class command.now) host.now (H.told shelf.old) (H.faults shelf.old)
        (H.faults shelf.new)) }
{
    match command {
        ViewCommand::List => list_step(alloc, host, class, shelf),
        ViewCommand::Status => Ok(status_step(alloc, host, class)?),
        ViewCommand::Merge { force } => merge_step(alloc, host, class, *force, shelf),
        ViewCommand::Unmerge => Ok(unmerge_step(alloc, host, class)?),
        ViewCommand::Refresh { force } => refresh_step(alloc, host, class, *force, shelf),
        ViewCommand::Changes { force } => changes_step(alloc, host, class, *force, shelf),
        ViewCommand::Explain { force, path } => {
            explain_step(alloc, host, class, *force, path, shelf)
        }
    }
}

// What `list` wants.
fn list_step<H: Shelf>(
    alloc: Global,
    host: &Host,
    class: Extension,
    shelf: &mut H,
) -> Result<Intent, PlanErr>
    requires valid { IsValidHost host.now }
    requires serves { ServesHost (H.serves shelf.old) host.now }
    ensures wants { IfOk result (ListWants host.now (H.told shelf.old) class) }
    ensures stays { H.stays shelf.old shelf.new }
    ensures count { H.faults shelf.old ≤ H.faults shelf.new }
    ensures cause { IfErr result (ViewCause (IsViewFile host.now class commands.List) host.now (H.told shelf.old) (H.faults shelf.old)
        (H.faults shelf.new)) }
{
    match survey(alloc, host, class, false, shelf) {
        Ok(found) => {
            let items = listed_items(alloc, found)?;
            Ok(Intent::Answers(Answer::Found(items)))
        }
        Err(failed) => refused(failed),
    }
}

// What `merge` wants.
fn merge_step<H: Shelf>(
    alloc: Global,
    host: &Host,
    class: Extension,
    force: bool,
    shelf: &mut H,
) -> Result<Intent, PlanErr>
    requires valid { IsValidHost host.now }
    requires serves { ServesHost (H.serves shelf.old) host.now }
    ensures wants { IfOk result (MergeWants host.now (H.told shelf.old) class force) }
    ensures stays { H.stays shelf.old shelf.new }
    ensures count { H.faults shelf.old ≤ H.faults shelf.new }
    ensures cause { IfErr result (ViewCause (IsViewFile host.now class (commands.Merge force)) host.now (H.told shelf.old)
        (H.faults shelf.old) (H.faults shelf.new)) }
{
    match merge(alloc, host, class, force, shelf) {
        Ok(Merge { plan, names }) => Ok(planned(plan, Answer::Merged(names))),
        Err(failed) => refused(failed),
    }
}

// What `refresh` wants.
fn refresh_step<H: Shelf>(
    alloc: Global,
    host: &Host,
    class: Extension,
    force: bool,
    shelf: &mut H,
) -> Result<Intent, PlanErr>
    requires valid { IsValidHost host.now }
    requires serves { ServesHost (H.serves shelf.old) host.now }
    ensures wants { IfOk result (RefreshWants host.now (H.told shelf.old) class force) }
    ensures stays { H.stays shelf.old shelf.new }
    ensures count { H.faults shelf.old ≤ H.faults shelf.new }
    ensures cause { IfErr result (ViewCause (IsViewFile host.now class (commands.Refresh force)) host.now (H.told shelf.old)
        (H.faults shelf.old) (H.faults shelf.new)) }
{
    match refresh(alloc, host, class, force, shelf) {
        Ok(Merge { plan, names }) => Ok(planned(plan, Answer::Merged(names))),
        Err(failed) => refused(failed),
    }
}

// What `changes` wants.
fn changes_step<H: Shelf>(
    alloc: Global,
    host: &Host,
    class: Extension,
    force: bool,
    shelf: &mut H,
) -> Result<Intent, PlanErr>
    requires valid { IsValidHost host.now }
    requires serves { ServesHost (H.serves shelf.old) host.now }
    ensures wants { IfOk result (ChangesWants host.now (H.told shelf.old) class force) }
    ensures stays { H.stays shelf.old shelf.new }
    ensures count { H.faults shelf.old ≤ H.faults shelf.new }
    ensures cause { IfErr result (ViewCause (IsViewFile host.now class (commands.Changes force)) host.now (H.told shelf.old)
        (H.faults shelf.old) (H.faults shelf.new)) }
{
    match view_changes(alloc, host, class, force, shelf) {
        Ok(list) => Ok(Intent::Answers(Answer::Changes(list))),
        Err(failed) => refused(failed),
    }
}

// What `explain` wants.
fn explain_step<H: Shelf>(
    alloc: Global,
    host: &Host,
    class: Extension,
    force: bool,
    path: &Path,
    shelf: &mut H,
) -> Result<Intent, PlanErr>
    requires valid { IsValidHost host.now }
    requires serves { ServesHost (H.serves shelf.old) host.now }
    ensures wants { IfOk result (ExplainWants host.now (H.told shelf.old) class force path.now) }
    ensures stays { H.stays shelf.old shelf.new }
    ensures count { H.faults shelf.old ≤ H.faults shelf.new }
    ensures cause { IfErr result (ViewCause (IsViewFile host.now class (commands.Explain force path.now)) host.now (H.told shelf.old)
        (H.faults shelf.old) (H.faults shelf.new)) }
{
    match explain(alloc, host, class, force, path, shelf) {
        Ok(origins) => Ok(Intent::Answers(Answer::Explained(origins))),
        Err(ExplainErr::NoEntry) => Ok(no_entry(path)?),
        Err(ExplainErr::Survey(failed)) => refused(failed),
    }
}

// The refusal of a path at which there is nothing.
fn no_entry(path: &Path) -> Result<Intent, OutOfMemory>
    ensures { IfOk result (λ intent. intent ≡ Refuses (NoEntry path.now)) }
{
    let path = path.copy()?;
    Ok(Intent::Refuses(Refusal::NoEntry { path }))
}

// What `unmerge` wants.
fn unmerge_step(alloc: Global, host: &Host, class: Extension) -> Result<Intent, OutOfMemory>
    requires { IsValidHost host.now }
    ensures { IfOk result (UnmergeWants host.now class) }
{
    let plan = unmerge(alloc, host, class)?;
    Ok(planned(plan, Answer::Unmerged))
}

// What `status` wants.
fn status_step(alloc: Global, host: &Host, class: Extension) -> Result<Intent, OutOfMemory>
    ensures { IfOk result (λ intent. intent ≡ status_intent host.now class) }
{
    let answer = match merged_names(host, class) {
        None => Answer::Unmerged,
        Some(names) => Answer::Merged(copy_of_list(alloc, names)?),
    };
    Ok(Intent::Answers(answer))
}

// The names of the class, where they are merged.
fn merged_names(host: &Host, class: Extension) -> Option<&Names>
    ensures { option_copied result ≡ merged_names class (present host.now) }
{
    match class {
        Extension::Sysext => host.sysext.as_ref(),
        Extension::Confext => host.confext.as_ref(),
    }
}

// The host that is planned, where one is, or the answer alone.
fn planned(plan: Option<Plan>, answer: Answer) -> Intent
    ensures { result ≡ planned plan answer }
{
    match plan {
        None => Intent::Answers(answer),
        Some(Plan { next }) => Intent::Changes(next, answer),
    }
}

// What a command wants where a host is not surveyed or merged, or why nothing is planned.
fn refused(failed: ViewErr) -> Result<Intent, PlanErr>
    ensures { result ≡ refused failed }
{
    match failed {
        ViewErr::OutOfMemory => Err(PlanErr::OutOfMemory),
        ViewErr::Merged => Ok(Intent::Refuses(Refusal::Merged)),
        ViewErr::NoHostRelease => Ok(Intent::Refuses(Refusal::NoHostRelease)),
        ViewErr::BadHostRelease { line } => Ok(Intent::Refuses(Refusal::BadHostRelease { line })),
        ViewErr::Shelf(failed) => Err(PlanErr::Shelf(failed)),
        ViewErr::Limit { which } => Ok(Intent::Refuses(Refusal::Limit { which })),
    }
}
