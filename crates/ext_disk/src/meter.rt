// What a disk in memory counts and keeps of its calls, and which of them it fails.
ghost use Rattle.std.specs.Prelude.{◌≡◌, ◌≤◌, ◌++◌, ◌∷◌, ◌↔◌, [], IsTrue, OnOk, OnErr, is_ok};
ghost use Rattle.ext_text.specs.Causes.{HasCause};
ghost use Rattle.ext_disk.specs.Meter.{HasStopped, IsMetered, IsStarved};

use crate::disk_call::{DiskCall, DiskOp};
use ext_io::{Calls, Failed, is_listed, next_count};
use ext_text::{OutOfMemory, Path};
use std::alloc::Global;

#[derive(Drop)]
pub(crate) struct Meter {
    pub(crate) fails: Calls,
    pub(crate) stop: Option<u64>,
    pub(crate) called: u64,
    pub(crate) calls: Vec<DiskCall>,
    pub(crate) starved: u64,
    pub(crate) faults: u64,
}

impl Meter {
    /// Fails the calls of these numbers, and each from the number `stop` on.
    pub(crate) fn new(alloc: Global, fails: Calls, stop: Option<u64>) -> Meter
        ensures fails { result.fails ≡ fails }
        ensures stop { result.stop ≡ stop }
        ensures called { result.called ≡ 0 }
        ensures calls { result.calls.items ≡ [] }
        ensures starved { result.starved ≡ 0 }
        ensures faults { result.faults ≡ 0 }
    {
        Meter {
            fails,
            stop,
            called: 0,
            calls: Vec::new(alloc),
            starved: 0,
            faults: 0,
        }
    }

    /// Counts a call and keeps it in the record, and says whether it is one that fails.
    pub(crate) fn admit(&mut self, op: DiskOp, path: &Path, bytes: u64) -> Result<(), Failed>
        ensures metered { IsMetered self.old self.new (record { op = op; path = path.now; bytes = bytes }) (is_ok result) }
        ensures count { self.old.faults ≤ self.new.faults }
        ensures cause { HasCause result self.old.faults self.new.faults }
    {
        self.called = next_count(self.called);
        if keep(&mut self.calls, op, path, bytes).is_err() {
            return Err(self.starve());
        }
        if is_listed(&self.fails, self.called) || has_stopped(self.stop, self.called) {
            self.faults = next_count(self.faults);
            return Err(Failed);
        }
        Ok(())
    }

    /// The call that is under way found no memory.
    pub(crate) fn starve(&mut self) -> Failed
        ensures starved { IsStarved self.old self.new }
        ensures count { self.old.faults ≤ self.new.faults }
    {
        self.starved = next_count(self.starved);
        self.faults = next_count(self.faults);
        Failed
    }
}

// Whether a call of this number comes at or after the stop.
fn has_stopped(stop: Option<u64>, call: u64) -> bool
    ensures { IsTrue result ↔ HasStopped stop call }
{
    match stop {
        None => false,
        Some(stop) => stop <= call,
    }
}

// Keeps a call at the end of the record.
fn keep(calls: &mut Vec<DiskCall>, op: DiskOp, path: &Path, bytes: u64) -> Result<(), OutOfMemory>
    ensures ok { OnOk result (calls.new.items
        ≡ calls.old.items ++ (record { op = op; path = path.now; bytes = bytes }) ∷ []) }
    ensures err { OnErr result (calls.new.items ≡ calls.old.items) }
{
    let path = path.copy()?;
    calls.push(DiskCall { op, path, bytes })?;
    Ok(())
}
