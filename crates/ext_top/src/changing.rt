// Which commands may change a store.
ghost use Rattle.std.specs.Prelude.{◌≡◌};
ghost use Rattle.ext_top.specs.Changing.{may_change, may_service_change, may_verb_change, may_view_change};

use ext_cmd::{Command, PortCommand, UpdateVerb, ViewCommand};

/// Whether a command may make, remove or append anything in a store folder; `batch` may, whatever its lines. Where a command may
/// not, a run of it does not, whatever stands there. `run` says so.
pub fn may_change(command: &Command) -> bool
    ensures { result ≡ may_change command.now }
{
    match command {
        Command::Init { .. }
        | Command::ImportFs { .. }
        | Command::Remove { .. }
        | Command::Migrate
        | Command::Batch
        | Command::Mark { .. }
        | Command::Rollback { .. }
        | Command::Forget { .. } => true,
        Command::Sysext(view) | Command::Confext(view) => may_view_change(view),
        Command::Tree { .. }
        | Command::Cat { .. }
        | Command::Compare(_, _)
        | Command::Check
        | Command::Layer
        | Command::Sample { .. }
        | Command::Components
        | Command::History
        | Command::HistoryChanges { .. } => false,
        Command::Sysupdate { verb, .. } => may_verb_change(verb),
        Command::Portable(command) => may_service_change(command),
    }
}

fn may_view_change(view: &ViewCommand) -> bool
    ensures { result ≡ may_view_change view.now }
{
    match view {
        ViewCommand::List
        | ViewCommand::Status
        | ViewCommand::Changes { .. }
        | ViewCommand::Explain { .. } => false,
        ViewCommand::Merge { .. } | ViewCommand::Unmerge | ViewCommand::Refresh { .. } => true,
    }
}

fn may_verb_change(verb: &UpdateVerb) -> bool
    ensures { result ≡ may_verb_change verb.now }
{
    match verb {
        UpdateVerb::List | UpdateVerb::CheckNew | UpdateVerb::Features => false,
        UpdateVerb::Update { .. } | UpdateVerb::Vacuum => true,
    }
}

fn may_service_change(command: &PortCommand) -> bool
    ensures { result ≡ may_service_change command.now }
{
    match command {
        PortCommand::List | PortCommand::Inspect { .. } | PortCommand::IsAttached { .. } => false,
        PortCommand::Attach(_) | PortCommand::Detach { .. } | PortCommand::Reattach(_) => true,
    }
}
