// Runs of commands that look at no store.
ghost use Rattle.std.specs.Prelude.{◌≡◌, ◌≤◌};
ghost use Rattle.ext_cmd.specs.declared.command.Command.TheVariants.{Layer};
ghost use Rattle.ext_intents.specs.Compare.{compare_intent};
ghost use Rattle.ext_top.specs.Alone.{IsAlone};
ghost use Rattle.ext_top.specs.Devices.{streams};
ghost use Rattle.ext_top.specs.Running.{EndsAlone, WritesIntent, WritesLast, status_of_read};

use crate::status::Status;
use ext_cmd::{answer_text, refusal_text};
use ext_intents::{Intent, compare_step, layer_step};
use ext_io::{ReadErr, Sink, Source, read_to_end, write_all};
use ext_text::{OutOfMemory, Text};
use std::alloc::Global;

/// The most bytes of a source.
pub(crate) const MOST_SOURCE: usize = 16_777_216;

/// The run of `layer`, which reads its source first.
pub(crate) fn run_layer<S: Source, K: Sink>(alloc: Global, source: &mut S, sink: &mut K) -> Status
    ensures ends { EndsAlone Layer (streams (S.state source.old) (K.state sink.old))
        (streams (S.state source.new) (K.state sink.new)) result }
    ensures source { (S.state source.old).faults ≤ (S.state source.new).faults }
    ensures sink { (K.state sink.old).faults ≤ (K.state sink.new).faults }
{
    match read_to_end(alloc, source, MOST_SOURCE) {
        Ok(text) => match layer_step(alloc, text) {
            Ok(intent) => write_intent(alloc, intent, sink),
            Err(OutOfMemory) => Status::OutOfMemory,
        },
        Err(error) => status_of_read(error),
    }
}

/// The status of a source that was not read whole.
pub(crate) fn status_of_read(error: ReadErr) -> Status
    ensures { result ≡ status_of_read error }
{
    match error {
        ReadErr::OutOfMemory => Status::OutOfMemory,
        ReadErr::Failed => Status::ReadFault,
        ReadErr::TooLong => Status::TooLong,
    }
}

/// The run of `compare`, which sees no source.
pub(crate) fn run_compare<K: Sink>(alloc: Global, a: &Text, b: &Text, sink: &mut K) -> Status
    ensures writes { WritesIntent (compare_intent a.now b.now) (K.state sink.old) (K.state sink.new) result }
    ensures count { (K.state sink.old).faults ≤ (K.state sink.new).faults }
{
    let intent = compare_step(a.bytes(), b.bytes());
    write_intent(alloc, intent, sink)
}

/// Writes what a command that looks at no store wants.
pub(crate) fn write_intent<K: Sink>(alloc: Global, intent: Intent, sink: &mut K) -> Status
    requires { IsAlone intent }
    ensures writes { WritesIntent intent (K.state sink.old) (K.state sink.new) result }
    ensures count { (K.state sink.old).faults ≤ (K.state sink.new).faults }
{
    match intent {
        Intent::Answers(answer) => match answer_text(alloc, answer) {
            Ok(text) => write_last(Status::Done, text.bytes(), sink),
            Err(OutOfMemory) => Status::OutOfMemory,
        },
        Intent::Refuses(refusal) => match refusal_text(alloc, &refusal) {
            Ok(line) => write_last(Status::Refused(refusal), line.bytes(), sink),
            Err(OutOfMemory) => Status::OutOfMemory,
        },
        Intent::Changes(_, _) | Intent::Checks | Intent::Shows(_) => unreachable!(),
    }
}

// Writes a reply. The status is the one that is handed in, where the whole reply was written.
fn write_last<K: Sink>(status: Status, text: &[u8], sink: &mut K) -> Status
    ensures writes { WritesLast status text.now (K.state sink.old) (K.state sink.new) result }
    ensures count { (K.state sink.old).faults ≤ (K.state sink.new).faults }
{
    match write_all(sink, text) {
        Ok(()) => status,
        Err(_failed) => Status::WriteFault,
    }
}
