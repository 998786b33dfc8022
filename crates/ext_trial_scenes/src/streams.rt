// The streams of a command, and its run.
use crate::every::Device;
use ext_case::{Trouble, append_number, append_str};
use ext_depot::Depot;
use ext_disk::Disk;
use ext_io::{Calls, MemorySink, MemorySource};
use ext_text::{Text, Words};
use ext_top::{Devices, MemoryObserver, Status, run};
use ext_trial_disks::{Outcome, append_bad_store, append_field};
use std::alloc::Global;

/// A disk and a depot, beside streams in memory and an observer that keeps what it is told.
pub type MemoryStreams<D, P> = Devices<MemorySource, MemorySink, D, P, MemoryObserver>;

/// What a command reads and how it is written: the bytes of its source, how many bytes a call moves, and which call of
/// each stream fails, 0 where none does.
#[derive(Drop)]
pub struct Streams {
    /// The bytes of the source.
    pub source: Text,
    /// The most bytes that a call moves; of a 0, one.
    pub piece: usize,
    /// The call of the source that fails.
    pub source_fails: u64,
    /// The call of the sink that fails.
    pub sink_fails: u64,
}

impl Streams {
    /// Of these bytes, which move many a call and never fail.
    pub fn new(source: Text) -> Streams {
        Streams {
            source,
            piece: 65_536,
            source_fails: 0,
            sink_fails: 0,
        }
    }

    /// Makes a call fail where the device is a stream, and no other of that stream.
    pub(crate) fn fail(&mut self, device: Device, call: u64) {
        match device {
            Device::Source => self.source_fails = call,
            Device::Sink => self.sink_fails = call,
            Device::Disk(_) | Device::Depot => {}
        }
    }

    // The source of a run.
    fn source(&self, alloc: Global) -> Result<MemorySource, Trouble> {
        let fails = only(alloc, self.source_fails)?;
        Ok(MemorySource::new(self.source.copy()?, self.piece.max(1), fails))
    }

    /// The sink of a run.
    pub(crate) fn sink(&self, alloc: Global) -> Result<MemorySink, Trouble> {
        let fails = only(alloc, self.sink_fails)?;
        Ok(MemorySink::new(alloc, self.piece.max(1), fails))
    }
}

/// A disk and a depot with an empty source and a sink: each run is given its own.
pub fn beside_streams<D: Disk, P: Depot>(alloc: Global, disk: D, depot: P) -> MemoryStreams<D, P> {
    Devices {
        source: MemorySource::new(Text::new(alloc), 1, Calls::new(alloc)),
        sink: MemorySink::new(alloc, 1, Calls::new(alloc)),
        disk,
        depot,
        observer: MemoryObserver::new(alloc),
    }
}

/// Runs a command over streams in memory, a disk and a depot. Where the observer wasn't told of each refusal whose line was written, in
/// their order, and of nothing else, the status says so, which none that is stated does.
///
/// # Errors
/// `OutOfMemory`, of the runner and not of the run.
pub fn run_over<D: Disk, P: Depot>(
    alloc: Global,
    words: &Words,
    streams: &Streams,
    devices: &mut MemoryStreams<D, P>,
) -> Result<Outcome, Trouble> {
    give_streams(alloc, streams, devices)?;
    let status = run(alloc, words, devices);
    outcome_of(alloc, &status, devices.sink.written(), &devices.observer)
}

// Gives a run its streams, and an observer that was told of nothing.
fn give_streams<D: Disk, P: Depot>(
    alloc: Global,
    streams: &Streams,
    devices: &mut MemoryStreams<D, P>,
) -> Result<(), Trouble> {
    devices.source = streams.source(alloc)?;
    devices.sink = streams.sink(alloc)?;
    devices.observer = MemoryObserver::new(alloc);
    Ok(())
}

// How a run ended that wrote this.
fn outcome_of(
    alloc: Global,
    status: &Status,
    written: &[u8],
    observer: &MemoryObserver,
) -> Result<Outcome, Trouble> {
    let mut status = status_text(alloc, status)?;
    if !is_told(written, observer) {
        append_str(&mut status, " untold")?;
    }
    let reply = Text::from_bytes(alloc, written)?;
    Ok(Outcome { status, reply })
}

// Whether an observer was told of the refusals whose lines were written, in their order, and of nothing else; so too where it found
// no memory to keep one.
fn is_told(written: &[u8], observer: &MemoryObserver) -> bool {
    match observer.lines() {
        Some(told) => are_lines(written, told.as_slice()),
        None => true,
    }
}

// Whether the lines of refusals in a reply are these, in their order.
fn are_lines(written: &[u8], told: &[Text]) -> bool {
    let mut count = 0;
    for line in written.split_inclusive(|byte| *byte == b'\n') {
        if line.starts_with(b"refused ") && line.ends_with(b"\n") {
            match told.get(count) {
                Some(text) if text.bytes() == line => count += 1,
                _ => return false,
            }
        }
    }
    count == told.len()
}

/// The calls of a device of which only this one fails; none where it is 0.
pub(crate) fn only(alloc: Global, call: u64) -> Result<Calls, Trouble> {
    let mut calls = Calls::new(alloc);
    if call > 0 {
        calls.push(call)?;
    }
    Ok(calls)
}

/// A status as a statement states it: its number, of words that are no command with the place of the fault, and of a bad
/// store with what is wrong.
fn status_text(alloc: Global, status: &Status) -> Result<Text, Trouble> {
    let mut text = Text::new(alloc);
    append_number(alloc, &mut text, u64::from(status.number()))?;
    match status {
        Status::Usage { place } => append_field(alloc, &mut text, *place)?,
        Status::BadStore(bad) => append_bad_store(alloc, &mut text, bad)?,
        _ => {}
    }
    Ok(text)
}
