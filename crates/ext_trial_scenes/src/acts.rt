// What a case did to its devices, so that it can be done again.
use crate::publishing::publish_over;
use crate::streams::{MemoryStreams, Streams, beside_streams, run_over};
use ext_case::{Trouble, written};
use ext_depot::MemoryDepot;
use ext_disk::{MemoryDisk, Pick};
use ext_io::Calls;
use ext_text::{Path, Text, Words};
use ext_trial_disks::{Outcome, call_text, put_on};
use std::alloc::Global;
use std::collections::BTreeMap;
use std::mem;

/// The files of a depot.
pub(crate) type Files = BTreeMap<Path, Text>;

/// A disk of a scene.
#[derive(Clone, Copy)]
pub(crate) enum Side {
    /// That of the store.
    Store,
    /// That in which is published.
    Out,
}

/// The devices of a scene: a store beside a depot and streams, and the disk in which is published.
#[derive(Drop)]
pub(crate) struct MemoryDevices {
    pub(crate) store: MemoryStreams<MemoryDisk, MemoryDepot>,
    pub(crate) out: MemoryDisk,
}

impl MemoryDevices {
    /// One of the disks.
    pub(crate) fn disk(&mut self, side: Side) -> &mut MemoryDisk {
        match side {
            Side::Store => &mut self.store.disk,
            Side::Out => &mut self.out,
        }
    }

    /// Puts another disk in the place of one.
    pub(crate) fn replace(&mut self, side: Side, disk: MemoryDisk) -> MemoryDisk {
        mem::replace(self.disk(side), disk)
    }
}

/// What a statement does.
#[derive(Clone, Copy)]
pub(crate) enum Kind {
    /// It puts something on the disk.
    Put,
    /// It asks the disk for a call.
    Call,
    /// It stops the disk and goes on with what is left.
    Stop(Pick),
    /// It runs a command.
    Run,
    /// It publishes.
    Publish,
}

/// A statement that changes a device: what it does to which disk, its words, and what the source of a command has.
#[derive(Drop)]
pub(crate) struct Act {
    pub(crate) kind: Kind,
    pub(crate) side: Side,
    pub(crate) words: Words,
    pub(crate) source: Text,
}

impl Act {
    /// Whether it runs a command or publishes.
    pub(crate) fn is_run(&self) -> bool {
        matches!(self.kind, Kind::Run | Kind::Publish)
    }
}

/// An empty disk on which nothing fails.
pub(crate) fn empty_disk(alloc: Global) -> MemoryDisk {
    MemoryDisk::new(alloc, Calls::new(alloc), None)
}

/// A depot of these files, of which these calls fail.
pub(crate) fn depot_of(alloc: Global, files: &Files, fails: Calls) -> Result<MemoryDepot, Trouble> {
    let mut depot = MemoryDepot::new(alloc, fails);
    for (at, bytes) in files.iter() {
        depot.put(at.copy()?, bytes.copy()?)?;
    }
    Ok(depot)
}

/// Empty disks and a depot of these files, on which nothing fails.
pub(crate) fn fresh_devices(alloc: Global, files: &Files) -> Result<MemoryDevices, Trouble> {
    let depot = depot_of(alloc, files, Calls::new(alloc))?;
    Ok(MemoryDevices {
        store: beside_streams(alloc, empty_disk(alloc), depot),
        out: empty_disk(alloc),
    })
}

/// Stops a disk now, and goes on with what is left of it.
pub(crate) fn stop_disk(
    alloc: Global,
    devices: &mut MemoryDevices,
    side: Side,
    pick: Pick,
) -> Result<(), Trouble> {
    let disk = devices.replace(side, empty_disk(alloc));
    let _empty = devices.replace(side, disk.after_stop(pick)?);
    Ok(())
}

/// How an act ends over these streams. What puts things on a disk writes nothing.
pub(crate) fn act_over(
    alloc: Global,
    act: &Act,
    streams: &Streams,
    devices: &mut MemoryDevices,
) -> Result<Outcome, Trouble> {
    match act.kind {
        Kind::Run => run_over(alloc, &act.words, streams, &mut devices.store),
        Kind::Publish => publish_over(alloc, &act.words, streams, devices),
        _ => Ok(Outcome {
            status: written(alloc, b"0")?,
            reply: asked(alloc, act, devices)?,
        }),
    }
}

// What a disk writes of an act.
fn asked(alloc: Global, act: &Act, devices: &mut MemoryDevices) -> Result<Text, Trouble> {
    let words = act.words.as_slice();
    match act.kind {
        Kind::Call => return call_text(alloc, devices.disk(act.side), words),
        Kind::Stop(pick) => stop_disk(alloc, devices, act.side, pick)?,
        _ => put_on(alloc, devices.disk(act.side), words)?,
    }
    Ok(Text::new(alloc))
}

/// How an act ends over streams on which nothing fails.
pub(crate) fn act_on(
    alloc: Global,
    act: &Act,
    devices: &mut MemoryDevices,
) -> Result<Outcome, Trouble> {
    act_over(alloc, act, &Streams::new(act.source.copy()?), devices)
}

/// Does all of these acts, each of which ends well.
pub(crate) fn act_all(
    alloc: Global,
    acts: &[Act],
    devices: &mut MemoryDevices,
) -> Result<(), Trouble> {
    for act in acts {
        if !act_on(alloc, act, devices)?.is_status("0") {
            return Err(Trouble::Unreadable("what comes before the change is not done"));
        }
    }
    Ok(())
}
