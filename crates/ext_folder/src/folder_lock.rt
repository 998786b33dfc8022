use crate::folder_err::FolderErr;
use std::fs::{File, Files, TryLockError};
use std::{fs, io};

/// Who else may work on a folder while its lock is held.
#[derive(Clone, Copy, PartialEq, Eq)]
pub enum Hold {
    /// Those that share the lock too.
    Shared,
    /// Nobody.
    Alone,
}

/// Who is told that a lock is waited for.
pub trait Notice {
    /// Another process holds the lock. From now on it is waited for.
    fn waiting(&mut self);
}

/// The lock on a folder of the system, after flock(2): it is asked for once, and held until its last handle goes, at the latest
/// where the process ends. It makes no file.
#[derive(Drop)]
pub struct FolderLock {
    state: State,
}

#[derive(Drop)]
enum State {
    // None is wanted.
    Unwanted,
    // The folder can't be opened, and why, until it was told.
    Closed(Option<io::Error>),
    // It is to be taken.
    Open(File, Hold),
    // It was taken.
    Held(File),
    // It was held on a folder in whose place another one stands now.
    Lost,
}

impl FolderLock {
    /// No lock.
    pub fn unwanted() -> FolderLock {
        FolderLock {
            state: State::Unwanted,
        }
    }

    /// The lock on the folder at this path of the system, which isn't asked for yet. That the folder can't be opened is told
    /// where it is.
    pub fn of<R: Files<File = File>>(rt: &R, folder: &str, hold: Hold) -> FolderLock {
        let state = match fs::open(rt, folder) {
            Ok(file) => State::Open(file, hold),
            Err(error) => State::Closed(Some(error)),
        };
        FolderLock { state }
    }

    /// One more handle of the lock, by which it can be given back; none where there is no lock to take.
    pub fn handle(&self) -> Option<File> {
        match &self.state {
            State::Open(file, _) | State::Held(file) => file.try_clone().ok(),
            State::Unwanted | State::Closed(_) | State::Lost => None,
        }
    }

    /// The name of the call that takes it, for who is told why it failed.
    pub(crate) fn call(&self) -> &'static str {
        match self.state {
            State::Closed(_) => "open",
            _ => "lock",
        }
    }

    /// Whether there is nothing to take: the lock is held, or none is wanted.
    pub(crate) fn is_settled(&self) -> bool {
        matches!(self.state, State::Unwanted | State::Held(_))
    }

    /// The folder on which the lock is held; none where it isn't held, or none is wanted.
    pub(crate) fn held(&self) -> Option<&File> {
        match &self.state {
            State::Held(file) => Some(file),
            _ => None,
        }
    }

    /// Gives the lock back for good, since another folder stands in the place of the locked one.
    pub(crate) fn lose(&mut self) {
        self.state = State::Lost;
    }

    /// Takes the lock, where it isn't held yet. Where another process holds it, that is told, and it is waited for.
    ///
    /// # Errors
    /// The folder can't be opened, or its file system has no locks. It is asked for again the next time. `Replaced` where the
    /// lock was lost.
    pub(crate) fn take<N: Notice>(&mut self, notice: &mut N) -> Result<(), FolderErr> {
        let (state, outcome) = match std::mem::replace(&mut self.state, State::Unwanted) {
            State::Open(file, hold) => match lock(&file, hold, notice) {
                Ok(()) => (State::Held(file), Ok(())),
                Err(error) => (State::Open(file, hold), Err(error.into())),
            },
            State::Closed(error) => (State::Closed(None), Err(closed(error))),
            State::Lost => (State::Lost, Err(FolderErr::Replaced)),
            other => (other, Ok(())),
        };
        self.state = state;
        outcome
    }
}

fn closed(error: Option<io::Error>) -> FolderErr {
    match error {
        Some(error) => FolderErr::Refused(error),
        None => FolderErr::NotFolder,
    }
}

fn lock<N: Notice>(file: &File, hold: Hold, notice: &mut N) -> io::Result<()> {
    match try_lock(file, hold) {
        Ok(()) => Ok(()),
        Err(TryLockError::WouldBlock) => {
            notice.waiting();
            wait(file, hold)
        }
        Err(TryLockError::Error(error)) => Err(error),
    }
}

fn try_lock(file: &File, hold: Hold) -> Result<(), TryLockError> {
    match hold {
        Hold::Shared => file.try_lock_shared(),
        Hold::Alone => file.try_lock(),
    }
}

fn wait(file: &File, hold: Hold) -> io::Result<()> {
    match hold {
        Hold::Shared => file.lock_shared(),
        Hold::Alone => file.lock(),
    }
}
