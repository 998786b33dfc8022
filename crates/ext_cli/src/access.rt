use ext_cmd::Command;
use ext_folder::{FolderLock, Hold};
use ext_reasons::lock;
use ext_top::may_change;
use std::fs::File;

/// How a command works on its store folder.
#[derive(Clone, Copy, PartialEq, Eq)]
pub(crate) enum Access {
    /// It doesn't look at it.
    None,
    /// It reads it, and looks at it no more once it writes.
    Reads,
    /// It reads it while it writes.
    Shows,
    /// It may change it.
    Changes,
}

impl Access {
    /// That of a command.
    pub(crate) fn of(command: &Command) -> Access {
        match command {
            Command::Compare(_, _) | Command::Layer | Command::Sample { .. } => Access::None,
            Command::Cat { .. } => Access::Shows,
            _ if may_change(command) => Access::Changes,
            _ => Access::Reads,
        }
    }

    /// The lock that it wants on the folder; none where the environment asks for none.
    pub(crate) fn lock(self, rt: &HostRuntime, store: &str) -> FolderLock {
        match self.hold() {
            Some(hold) => lock(rt, store, hold),
            None => FolderLock::unwanted(),
        }
    }

    fn hold(self) -> Option<Hold> {
        match self {
            Access::None => None,
            Access::Reads | Access::Shows => Some(Hold::Shared),
            Access::Changes => Some(Hold::Alone),
        }
    }

    /// The handle by which the lock is given back at the first byte that is written; none where it is held to the end.
    pub(crate) fn handle(self, lock: &FolderLock) -> Option<File> {
        match self {
            Access::Reads => lock.handle(),
            Access::None | Access::Shows | Access::Changes => None,
        }
    }
}
