// What the statements of a case have made so far.
mod runs;

use crate::acts::{Act, Files, MemoryDevices, Side, act_on, depot_of};
use crate::every::Device;
use crate::resources::Resource;
use crate::streams::{Streams, beside_streams};
use ext_case::Trouble;
use ext_disk::MemoryDisk;
use ext_io::Calls;
use ext_text::{Path, Text};
use ext_trial_disks::Outcome;
use std::alloc::Global;
use std::collections::BTreeMap;

// Where a disk fails: these calls, and each from the stop on.
#[derive(Drop)]
struct Faults {
    fails: Vec<u64>,
    stop: Option<u64>,
}

impl Faults {
    fn new(alloc: Global) -> Faults {
        Faults {
            fails: Vec::new(alloc),
            stop: None,
        }
    }

    // An empty disk that fails there.
    fn disk(&self, alloc: Global) -> Result<MemoryDisk, Trouble> {
        Ok(MemoryDisk::new(alloc, calls_of(alloc, self.fails.as_slice())?, self.stop))
    }
}

fn calls_of(alloc: Global, numbers: &[u64]) -> Result<Calls, Trouble> {
    let mut calls = Calls::new(alloc);
    for number in numbers {
        calls.push(*number)?;
    }
    Ok(calls)
}

/// The devices of a case, what was done to them, and how the last command ended.
#[derive(Drop)]
pub struct Scene {
    store_faults: Faults,
    out_faults: Faults,
    depot_fails: Vec<u64>,
    /// The disk of which statements speak.
    pub(crate) side: Side,
    /// The streams of the next command.
    pub(crate) streams: Streams,
    // How many bytes a call of a stream moves, for each run of a command.
    pieces: Vec<usize>,
    /// The files of the depot.
    pub(crate) files: Files,
    /// The resource that statements put entries into.
    pub(crate) resource: Option<Resource>,
    acts: Vec<Act>,
    // They are made when they are needed first.
    devices: Option<MemoryDevices>,
    // The status of the last command, where it was not stated yet.
    unsaid: Option<Text>,
}

impl Scene {
    /// Nothing so far: empty disks and an empty depot on which nothing fails.
    pub fn new(alloc: Global) -> Scene {
        Scene {
            store_faults: Faults::new(alloc),
            out_faults: Faults::new(alloc),
            depot_fails: Vec::new(alloc),
            side: Side::Store,
            streams: Streams::new(Text::new(alloc)),
            pieces: Vec::new(alloc),
            files: BTreeMap::new(alloc),
            resource: None,
            acts: Vec::new(alloc),
            devices: None,
            unsaid: None,
        }
    }

    /// The status of the last command, where it is another than 0 and no statement has stated it.
    pub fn unsaid(&self) -> Option<&Text> {
        match &self.unsaid {
            Some(status) if status.bytes() != b"0".as_slice() => Some(status),
            _ => None,
        }
    }

    /// The streams of the next command.
    pub fn streams(&self) -> &Streams {
        &self.streams
    }

    /// Keeps the status of a command that ended so, and gives what it wrote.
    pub fn end(&mut self, outcome: Outcome) -> Text {
        let Outcome { status, reply } = outcome;
        self.unsaid = Some(status);
        reply
    }

    /// The status of the last command; it is stated by now.
    pub(crate) fn said(&mut self) -> Option<Text> {
        self.unsaid.take()
    }

    /// Makes a later call of the disk fail, or this one and all that follow. What was done is done again on a disk that does so.
    pub(crate) fn fail_disk(
        &mut self,
        alloc: Global,
        call: u64,
        is_stop: bool,
    ) -> Result<(), Trouble> {
        let side = self.side;
        let mut devices = self.make_devices(alloc)?;
        let call = devices.disk(side).calls().saturating_add(call);
        let faults = match side {
            Side::Store => &mut self.store_faults,
            Side::Out => &mut self.out_faults,
        };
        if is_stop {
            faults.stop = Some(call);
        } else {
            faults.fails.push(call)?;
        }
        self.devices = None;
        Ok(())
    }

    /// Makes a call of a device fail: a later one of the disk, one of the depot before any device is used, and one of a stream in each
    /// command that follows.
    pub(crate) fn fail(&mut self, alloc: Global, device: Device, call: u64) -> Result<(), Trouble> {
        match device {
            Device::Disk(_) => return self.fail_disk(alloc, call, false),
            Device::Depot if self.devices.is_some() => {
                return Err(Trouble::Unreadable("the devices were used already"));
            }
            Device::Depot => self.depot_fails.push(call)?,
            Device::Source | Device::Sink => self.streams.fail(device, call),
        }
        Ok(())
    }

    /// Runs each command that follows over streams that move so many bytes a call, once for each of these.
    pub(crate) fn cut_streams(&mut self, pieces: Vec<usize>) {
        if let Some(first) = pieces.first() {
            self.streams.piece = *first;
        }
        self.pieces = pieces;
    }

    /// Puts a file into the depot.
    pub(crate) fn put(&mut self, path: Path, bytes: Text) -> Result<(), Trouble> {
        if let Some(devices) = &mut self.devices {
            devices.store.depot.put(path.copy()?, bytes.copy()?)?;
        }
        self.files.insert(path, bytes)?;
        Ok(())
    }

    /// The devices.
    pub(crate) fn devices(&mut self, alloc: Global) -> Result<&mut MemoryDevices, Trouble> {
        if self.devices.is_none() {
            let devices = self.make_devices(alloc)?;
            self.devices = Some(devices);
        }
        match &mut self.devices {
            Some(devices) => Ok(devices),
            None => Err(Trouble::Unreadable("no devices")),
        }
    }

    // Empty disks and a depot of the files, which fail where it was said, once all that was done is done there.
    fn make_devices(&self, alloc: Global) -> Result<MemoryDevices, Trouble> {
        let fails = calls_of(alloc, self.depot_fails.as_slice())?;
        let depot = depot_of(alloc, &self.files, fails)?;
        let mut devices = MemoryDevices {
            store: beside_streams(alloc, self.store_faults.disk(alloc)?, depot),
            out: self.out_faults.disk(alloc)?,
        };
        for act in self.acts.iter() {
            let _outcome = act_on(alloc, act, &mut devices)?;
        }
        Ok(devices)
    }

    /// The disk of which statements speak.
    pub(crate) fn disk(&mut self, alloc: Global) -> Result<&mut MemoryDisk, Trouble> {
        let side = self.side;
        Ok(self.devices(alloc)?.disk(side))
    }
}
