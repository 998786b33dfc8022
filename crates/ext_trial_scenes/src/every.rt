// A change is made once for each call that it makes, with that call failing or the disk stopped there.
use crate::acts::{
    Kind, MemoryDevices, Side, act_on, act_over, depot_of, empty_disk, fresh_devices, stop_disk,
};
use crate::ends::{Done, Ends, Play, ask, ends_of, prepare};
use crate::streams::{Streams, only};
use ext_case::{Trouble, append_str};
use ext_disk::{MemoryDisk, Pick};
use ext_io::Calls;
use ext_text::Text;
use ext_trial_disks::{Outcome, append_field};
use std::alloc::Global;
use std::mem;

// As many calls of one device are tried at most.
const MOST_CALLS: u64 = 100_000;

/// A device of a change.
#[derive(Clone, Copy)]
pub(crate) enum Device {
    /// Where a command reads from.
    Source,
    /// Where it writes to.
    Sink,
    /// The disk of which statements speak. It stops at a call and leaves what the pick says, or the call fails alone.
    Disk(Option<Pick>),
    /// The depot.
    Depot,
}

/// Lets each call of the device that the change makes fail alone, or stops the disk there and after the change. Gives how many calls that
/// are, and writes those that the change does not bear.
pub(crate) fn fail_every(play: &Play<'_>, device: Device, text: &mut Text) -> Result<u64, Trouble> {
    let mut devices = fresh_devices(play.alloc, play.files)?;
    let ends = ends_of(play, &mut devices)?;
    if !matches!(device, Device::Source | Device::Sink) && !ends.are_apart() {
        return Err(Trouble::Unreadable("the change does nothing that can be told"));
    }
    // A disk is stopped once after the change, too.
    let last = match device {
        Device::Disk(None) => ends.calls,
        Device::Disk(Some(_)) => ends.calls.saturating_add(1),
        _ => MOST_CALLS,
    };
    for call in 1..=last {
        match is_borne_at(play, &ends, (device, call), &mut devices)? {
            None => return Ok(call.saturating_sub(1)),
            Some(true) => {}
            Some(false) => append_call(play.alloc, text, "call", call)?,
        }
    }
    Ok(last)
}

/// Adds a line of a word and a number.
pub(crate) fn append_call(
    alloc: Global,
    text: &mut Text,
    word: &str,
    number: u64,
) -> Result<(), Trouble> {
    append_str(text, word)?;
    append_field(alloc, text, number)?;
    append_str(text, "\n")
}

// Whether the change bears that this call fails; `None` where it makes no such call, and ended as without a fault.
fn is_borne_at(
    play: &Play<'_>,
    ends: &Ends,
    at: (Device, u64),
    devices: &mut MemoryDevices,
) -> Result<Option<bool>, Trouble> {
    let (device, call) = at;
    let outcome = made(play, ends, at, devices)?;
    let is_same = outcome.is_same(&ends.outcome);
    // A source is read to its end before the disk is looked at.
    let is_early = devices.store.disk.calls() == ends.calls_before;
    match device {
        Device::Disk(None) => {}
        Device::Disk(Some(pick)) => stop_disk(play.alloc, devices, play.side, pick)?,
        _ if is_same => return Ok(None),
        _ => {}
    }
    let found = ask(play, devices)?;
    Ok(Some(match device {
        Device::Source if !is_early => false,
        Device::Disk(_) if call > ends.calls => is_same && found.bytes() == ends.last(),
        _ => is_borne(play, ends, device, &outcome, &found),
    }))
}

// Makes the change where a call of the device fails.
fn made(
    play: &Play<'_>,
    ends: &Ends,
    at: (Device, u64),
    devices: &mut MemoryDevices,
) -> Result<Outcome, Trouble> {
    let (device, call) = at;
    let disk = disk_of(play.alloc, ends, device, call)?;
    prepare(play, disk, devices)?;
    if matches!(device, Device::Depot) {
        return made_beside(play, call, devices);
    }
    let mut streams = Streams::new(play.change.source.copy()?);
    streams.piece = play.piece;
    streams.fail(device, call);
    act_over(play.alloc, play.change, &streams, devices)
}

// An empty disk, which fails at this call of the change where it is the device.
fn disk_of(alloc: Global, ends: &Ends, device: Device, call: u64) -> Result<MemoryDisk, Trouble> {
    let call = ends.calls_before.saturating_add(call);
    match device {
        Device::Disk(None) => Ok(MemoryDisk::new(alloc, only(alloc, call)?, None)),
        Device::Disk(Some(_)) => Ok(MemoryDisk::new(alloc, Calls::new(alloc), Some(call))),
        _ => Ok(empty_disk(alloc)),
    }
}

// Makes the change beside a depot of which a call fails.
fn made_beside(
    play: &Play<'_>,
    call: u64,
    devices: &mut MemoryDevices,
) -> Result<Outcome, Trouble> {
    let failing = depot_of(play.alloc, play.files, only(play.alloc, call)?)?;
    let depot = mem::replace(&mut devices.store.depot, failing);
    let outcome = act_on(play.alloc, play.change, devices)?;
    devices.store.depot = depot;
    Ok(outcome)
}

// Whether a change that ended so, and left this, did what it may where a call of the device failed. The first of its lines
// were done and wrote their replies, and one was not:
//
// | device | status | written of that line's reply | what the store tells |
// |---|---|---|---|
// | source | 3 | nothing, nor of another's | what it told before the change |
// | sink | 4 | a proper prefix | what it tells after the line |
// | disk | 5 | a prefix | what it tells before the line, or after it |
// | depot | 6 | nothing | what it tells before the line |
//
// A run that publishes writes nothing where a disk fails, and ends with 6 where that is the one in which it publishes.
fn is_borne(play: &Play<'_>, ends: &Ends, device: Device, outcome: &Outcome, found: &Text) -> bool {
    let written = outcome.reply.bytes();
    let publishes = matches!(play.change.kind, Kind::Publish);
    outcome.is_status(status_of(device, play.side))
        && match device {
            Device::Source => written.is_empty() && found.bytes() == ends.first.bytes(),
            Device::Disk(_) if publishes && !written.is_empty() => false,
            _ => is_left(ends, device, written, found.bytes()),
        }
}

fn status_of(device: Device, side: Side) -> &'static str {
    match device {
        Device::Source => "3",
        Device::Sink => "4",
        Device::Disk(_) if matches!(side, Side::Store) => "5",
        Device::Disk(_) | Device::Depot => "6",
    }
}

// Whether one of the lines may be the one that was not done.
fn is_left(ends: &Ends, device: Device, written: &[u8], found: &[u8]) -> bool {
    let mut before = ends.first.bytes();
    let mut rest = written;
    for line in ends.lines.iter() {
        if is_left_by_line(before, line, device, rest, found) {
            return true;
        }
        match rest.strip_prefix(line.reply.bytes()) {
            Some(after) => rest = after,
            None => return false,
        }
        before = line.told.bytes();
    }
    false
}

fn is_left_by_line(before: &[u8], line: &Done, device: Device, part: &[u8], found: &[u8]) -> bool {
    let reply = line.reply.bytes();
    let after = line.told.bytes();
    match device {
        Device::Source => false,
        Device::Sink => part.len() < reply.len() && reply.starts_with(part) && found == after,
        Device::Disk(_) => reply.starts_with(part) && (found == before || found == after),
        Device::Depot => part.is_empty() && found == before,
    }
}
