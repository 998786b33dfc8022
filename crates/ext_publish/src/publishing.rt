// The top call.
ghost use Rattle.std.specs.Prelude.{◌≡◌};
ghost use Rattle.ext_published.specs.Asked.{IsPublishAsk};
ghost use Rattle.ext_publish.specs.Publishing.{Publishes, PublishesFor, TellsDone, TellsRefused, TellsStop, status_of_words};

use crate::attempt::attempt;
use crate::counting::Made;
use crate::status::PubStatus;
use crate::stop::Stop;
use ext_disk::Disk;
use ext_io::{Sink, write_all};
use ext_published::{AskErr, Asked, PubRefusal, published_text, read_words, refusal_text};
use ext_text::Words;
use std::alloc::Global;

/// Publishes what the words `ABS RES NAME` ask: the entry of the host's visible tree at ABS, a directory or a file, as the
/// resource NAME in the folder RES of a depot.
///
/// 1. It opens the store, and syncs the root folder of the depot and, where RES is there, each folder from it to RES.
/// 2. It removes what an earlier run left: all that is at and below `RES/SHA256SUMS.next`, `RES/NAME.tree` and `RES/NAME`.
/// 3. It makes the missing folders of RES. For a directory it writes the tree text `RES/NAME.tree`, and each file below
///    `RES/NAME`; for a file it writes `RES/NAME`. It syncs all files, then the folders bottom up, then RES.
/// 4. It writes and syncs the new manifest beside the old one, and renames it to `RES/SHA256SUMS`.
/// 5. It writes `published`, the number of the files, and that of their bytes.
///
/// A stop at any moment leaves the old manifest, or the new one with all that it lists, and so does a run that fails. One that is
/// refused changes nothing. The store is only read. Each status comes as `Publishes` says.
pub fn publish<K: Sink, D: Disk, O: Disk>(
    alloc: Global,
    words: &Words,
    sink: &mut K,
    store: &mut D,
    out: &mut O,
) -> PubStatus
    ensures { Publishes words.now (record { sink = K.state sink.old; store = D.state store.old; out = O.state out.old })
        (record { sink = K.state sink.new; store = D.state store.new; out = O.state out.new }) result }
{
    match read_words(alloc, words) {
        Ok(asked) => publish_asked(alloc, &asked, sink, store, out),
        Err(refused) => status_of_words(refused),
    }
}

// How a run ends whose words ask nothing, or were not read.
fn status_of_words(refused: AskErr) -> PubStatus
    ensures { result ≡ status_of_words refused }
{
    match refused {
        AskErr::OutOfMemory => PubStatus::OutOfMemory,
        AskErr::Usage { place } => PubStatus::Usage { place },
    }
}

// Publishes what is asked, and tells so.
fn publish_asked<K: Sink, D: Disk, O: Disk>(
    alloc: Global,
    asked: &Asked,
    sink: &mut K,
    store: &mut D,
    out: &mut O,
) -> PubStatus
    requires { IsPublishAsk asked.now }
    ensures { PublishesFor asked.now (record { sink = K.state sink.old; store = D.state store.old; out = O.state out.old })
        (record { sink = K.state sink.new; store = D.state store.new; out = O.state out.new }) result }
{
    match attempt(alloc, asked, store, out) {
        Ok(made) => tell_done(alloc, made, sink),
        Err(stop) => tell_stop(alloc, stop, sink),
    }
}

// Tells why a run stopped: a refusal by its line.
fn tell_stop<K: Sink>(alloc: Global, stop: Stop, sink: &mut K) -> PubStatus
    ensures { TellsStop stop (K.state sink.old) (K.state sink.new) result }
{
    match stop {
        Stop::Refused(refusal) => tell_refused(alloc, refusal, sink),
        Stop::OutOfMemory => PubStatus::OutOfMemory,
        Stop::DiskFault => PubStatus::DiskFault,
        Stop::OutFault => PubStatus::OutFault,
        Stop::BadStore(why) => PubStatus::BadStore(why),
        Stop::Unfinished => PubStatus::Unfinished,
    }
}

// Writes the line of a run that was done.
fn tell_done<K: Sink>(alloc: Global, made: Made, sink: &mut K) -> PubStatus
    ensures { TellsDone made (K.state sink.old) (K.state sink.new) result }
{
    match published_text(alloc, made.files, made.bytes) {
        Err(_) => PubStatus::OutOfMemory,
        Ok(line) => match write_all(sink, line.bytes()) {
            Ok(()) => PubStatus::Done,
            Err(_) => PubStatus::WriteFault,
        },
    }
}

// Writes the line of a refusal.
fn tell_refused<K: Sink>(alloc: Global, refusal: PubRefusal, sink: &mut K) -> PubStatus
    ensures { TellsRefused refusal (K.state sink.old) (K.state sink.new) result }
{
    match refusal_text(alloc, &refusal) {
        Err(_) => PubStatus::OutOfMemory,
        Ok(line) => match write_all(sink, line.bytes()) {
            Ok(()) => PubStatus::Refused(refusal),
            Err(_) => PubStatus::WriteFault,
        },
    }
}
