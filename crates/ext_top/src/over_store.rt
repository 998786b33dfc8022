// Runs over a store, which is opened first.
ghost use Rattle.std.specs.Prelude.{◌≡◌, ◌∷◌, [], Option, true, false, IsTrue};
ghost use Rattle.ext_cmd.specs.declared.refusal.Refusal.{Refusal};
ghost use Rattle.ext_cmd.specs.Line.{may_be_line};
ghost use Rattle.ext_cmd.specs.Words.{IsWellFormed};
ghost use Rattle.ext_top.specs.Alone.{status_of_refusal};
ghost use Rattle.ext_top.specs.Chain.{IsOfOpening, result_of, result_of_line, status_of, status_of_closed, status_of_stop};
ghost use Rattle.ext_top.specs.Devices.{store_side};
ghost use Rattle.ext_top.specs.Exits.{does};
ghost use Rattle.ext_top.specs.Running.{RunsBegun, RunsLines};

use crate::lines::{Written, do_line, run_lines};
use crate::observer::Observer;
use crate::status::Status;
use crate::stop::Stop;
use ext_cmd::{Command, Refusal};
use ext_depot::Depot;
use ext_disk::Disk;
use ext_gen::{BadStore, StoreErr, open};
use ext_io::Sink;
use std::alloc::Global;

/// The run of one command over a store.
pub(crate) fn run_single<K: Sink, D: Disk, P: Depot, O: Observer>(
    alloc: Global,
    command: &Command,
    sink: &mut K,
    disk: &mut D,
    depot: &mut P,
    observer: &mut O,
) -> Status
    requires line { IsTrue (may_be_line command.now) }
    requires formed { IsWellFormed command.now }
    ensures runs { RunsLines false (does command.now ∷ [])
        (store_side (K.state sink.old) (D.state disk.old) (P.state depot.old) (O.state observer.old))
        (store_side (K.state sink.new) (D.state disk.new) (P.state depot.new) (O.state observer.new)) result }
{
    match open(alloc, disk) {
        Ok(opened) => status_of_line(do_line(
            alloc, None, command, opened, sink, disk, depot, observer,
        )),
        Err(error) => status_of_closed(error),
    }
}

/// The run of the lines of a text over a store, which is opened though there be none.
pub(crate) fn run_text<K: Sink, D: Disk, P: Depot, O: Observer>(
    alloc: Global,
    text: &[u8],
    sink: &mut K,
    disk: &mut D,
    depot: &mut P,
    observer: &mut O,
) -> Status
    ensures runs { RunsBegun text.now
        (store_side (K.state sink.old) (D.state disk.old) (P.state depot.old) (O.state observer.old))
        (store_side (K.state sink.new) (D.state disk.new) (P.state depot.new) (O.state observer.new)) result }
{
    match open(alloc, disk) {
        Ok(opened) => status_of_lines(run_lines(alloc, text, opened, sink, disk, depot, observer)),
        Err(error) => status_of_closed(error),
    }
}

// The status of a run of one line.
fn status_of_line(line: Result<Written, Stop>) -> Status
    ensures { result ≡ status_of false (result_of_line line) }
{
    match line {
        Ok(written) => status_of_refusal(written.refusal),
        Err(stop) => status_of_stop(stop),
    }
}

// The status of a batch, which is done though lines of it were refused.
fn status_of_lines(lines: Result<(), Stop>) -> Status
    ensures { (last : Option Refusal) → result ≡ status_of true (result_of last lines) }
{
    match lines {
        Ok(()) => Status::Done,
        Err(stop) => status_of_stop(stop),
    }
}

// The status of a command that was done or refused.
fn status_of_refusal(refusal: Option<Refusal>) -> Status
    ensures { result ≡ status_of_refusal refusal }
{
    match refusal {
        None => Status::Done,
        Some(refusal) => Status::Refused(refusal),
    }
}

// The status of a run that stopped.
fn status_of_stop(stop: Stop) -> Status
    ensures { result ≡ status_of_stop stop }
{
    match stop {
        Stop::WriteFault => Status::WriteFault,
        Stop::DiskFault => Status::DiskFault,
        Stop::DepotFault => Status::DepotFault,
        Stop::OutOfMemory => Status::OutOfMemory,
        Stop::BadStore(why) => Status::BadStore(why),
        Stop::Unfinished => Status::Unfinished,
    }
}

// The status of a store that was not opened.
fn status_of_closed(error: StoreErr) -> Status
    requires { IsOfOpening error }
    ensures { result ≡ status_of_closed error }
{
    match error {
        StoreErr::Fault(fault) => status_of_stop(Stop::from(fault)),
        StoreErr::Broken { line } => Status::BadStore(BadStore::Broken { line }),
        StoreErr::Mismatch { .. }
        | StoreErr::NotInDepot { .. }
        | StoreErr::Unfinished
        | StoreErr::Limit { .. } => unreachable!(),
    }
}
