// The top call.
ghost use Rattle.std.specs.Prelude.{◌≡◌};
ghost use Rattle.ext_cmd.specs.Words.{IsWellFormed};
ghost use Rattle.ext_top.specs.Changing.{StaysUnlessChanging};
ghost use Rattle.ext_top.specs.Completing.{Completes};
ghost use Rattle.ext_top.specs.Devices.{CountsOn, states};
ghost use Rattle.ext_top.specs.Observing.{IsToldOf, refused_with};
ghost use Rattle.ext_top.specs.Running.{Runs, RunsKind, run_kind};

use crate::alone::{run_compare, run_layer};
use crate::batch::run_batch;
use crate::devices::Devices;
use crate::observer::Observer;
use crate::over_store::run_single;
use crate::sample::run_sample;
use crate::status::Status;
use ext_cmd::{CmdErr, Command, read_words};
use ext_depot::Depot;
use ext_disk::Disk;
use ext_io::{Sink, Source};
use ext_text::Words;
use std::alloc::Global;

/// Runs the command that the words are, over a source and a sink, a store on a disk and a depot. One command is a list of one
/// line; `batch` runs the lines of its source.
///
/// `layer` and `batch` read the source to its end first. Where that tells its bytes, at most 16,777,217 of them are taken. Every
/// other command leaves the source alone. `layer`, `compare` and `sample` look at no store. Every other run opens the store. Then it
/// takes one line after another: it carries the command out by the machine, and then writes its reply. A batch goes on after a line
/// that was refused, and after one whose words are outside the grammar, to which it replies `usage PLACE`. Each status comes as
/// `Runs` says, with what was written and what the store stands for then, and after a stop at any moment: that is the state after
/// some of the first lines, or one for which the store might have stood before. A fault is told only where that count rose. The
/// observer is told of the refusal of each line that is refused, once its reply was written, and of nothing else.
///
/// Whatever the store is, each line makes, removes and appends only what the host that its command wants asks for, and nothing at all
/// where it wants no other host. A command that `may_change` is false of never does any of it. Where a line was done or refused, no
/// file that it showed or checked was another than listed, no change met more left-overs than one command removes, and the reply that
/// was written goes with what it met.
///
/// It tells a damaged file only where a line's command reads that file. It ends unfinished only at a line whose command wants a host
/// that passes no limit of a store, where more left-overs stand than one command removes. Where no count rose, a source that is read
/// tells its bytes and is within its limit, and a store that is looked at is sound and no line meets that, it ends with `Done`,
/// `Refused` or `OutOfMemory`.
pub fn run<S: Source, K: Sink, D: Disk, P: Depot, O: Observer>(
    alloc: Global,
    words: &Words,
    devices: &mut Devices<S, K, D, P, O>,
) -> Status
    ensures runs { Runs words.now (states S.state K.state D.state P.state O.state devices.old)
        (states S.state K.state D.state P.state O.state devices.new) result }
    ensures complete { Completes words.now (states S.state K.state D.state P.state O.state devices.old)
        (states S.state K.state D.state P.state O.state devices.new) result }
    ensures reading { StaysUnlessChanging words.now (states S.state K.state D.state P.state O.state devices.old)
        (states S.state K.state D.state P.state O.state devices.new) }
    ensures counts { CountsOn (states S.state K.state D.state P.state O.state devices.old)
        (states S.state K.state D.state P.state O.state devices.new) }
{
    match read_words(alloc, words) {
        Ok(command) => run_command(alloc, &command, devices),
        Err(CmdErr::OutOfMemory) => Status::OutOfMemory,
        Err(CmdErr::Usage { place }) => Status::Usage { place },
    }
}

// The run of a command.
fn run_command<S: Source, K: Sink, D: Disk, P: Depot, O: Observer>(
    alloc: Global,
    command: &Command,
    devices: &mut Devices<S, K, D, P, O>,
) -> Status
    requires { IsWellFormed command.now }
    ensures runs { RunsKind (run_kind command.now) command.now (states S.state K.state D.state P.state O.state devices.old)
        (states S.state K.state D.state P.state O.state devices.new) result }
    ensures counts { CountsOn (states S.state K.state D.state P.state O.state devices.old)
        (states S.state K.state D.state P.state O.state devices.new) }
{
    match command {
        Command::Layer => {
            let status = run_layer(alloc, &mut devices.source, &mut devices.sink);
            told(command, status, &mut devices.observer)
        }
        Command::Compare(a, b) => {
            let status = run_compare(alloc, a, b, &mut devices.sink);
            told(command, status, &mut devices.observer)
        }
        Command::Sample { images } => {
            let status = run_sample(alloc, *images, &mut devices.sink);
            told(command, status, &mut devices.observer)
        }
        Command::Batch => run_batch(alloc, devices),
        _ => run_single(
            alloc,
            command,
            &mut devices.sink,
            &mut devices.disk,
            &mut devices.depot,
            &mut devices.observer,
        ),
    }
}

// The status of a command that looks at no store, of whose refusal the observer is told, if it was refused.
fn told<O: Observer>(command: &Command, status: Status, observer: &mut O) -> Status
    ensures same { result ≡ status }
    ensures tells { IsToldOf (refused_with status) (O.state observer.old) (O.state observer.new) }
{
    if let Status::Refused(refusal) = &status {
        observer.refused(None, command, refusal, None);
    }
    status
}
