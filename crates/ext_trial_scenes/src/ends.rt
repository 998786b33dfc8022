// What a store tells before a change, after each line of a batch, and after a change.
use crate::acts::{Act, Files, Kind, MemoryDevices, Side, act_all, act_on, act_over, empty_disk};
use crate::publishing::left_text;
use crate::streams::{Streams, run_over};
use ext_case::Trouble;
use ext_disk::MemoryDisk;
use ext_text::{Text, Words};
use ext_trial_disks::{Outcome, spots_on, whole_text};
use std::alloc::Global;

/// A change, what was done before it, the files of the depot, the disk whose calls fail, and how many bytes a call of a stream moves.
#[derive(Clone, Copy)]
pub(crate) struct Play<'a> {
    pub(crate) alloc: Global,
    pub(crate) before: &'a [Act],
    pub(crate) change: &'a Act,
    pub(crate) files: &'a Files,
    pub(crate) side: Side,
    pub(crate) piece: usize,
}

/// What a store tells, where the change is made too. First it tells of a command its tree and a check of its files, and of a run that
/// publishes what stands on both disks. Then comes how the change ends there, and then the first again.
pub(crate) fn ask(play: &Play<'_>, devices: &mut MemoryDevices) -> Result<Text, Trouble> {
    let mut told = look(play, devices)?;
    let outcome = act_on(play.alloc, play.change, devices)?;
    append_outcome(&mut told, &outcome)?;
    told.append(look(play, devices)?.bytes())?;
    Ok(told)
}

// What a store tells of itself.
fn look(play: &Play<'_>, devices: &mut MemoryDevices) -> Result<Text, Trouble> {
    if matches!(play.change.kind, Kind::Publish) {
        return look_at_both(play, devices);
    }
    let mut told = Text::new(play.alloc);
    append_command(play.alloc, "tree", devices, &mut told)?;
    append_command(play.alloc, "check", devices, &mut told)?;
    Ok(told)
}

fn look_at_both(play: &Play<'_>, devices: &mut MemoryDevices) -> Result<Text, Trouble> {
    let spots = spots_on(play.alloc, &mut devices.store.disk)?;
    let mut told = whole_text(play.alloc, spots.as_slice())?;
    told.append(left_text(play.alloc, &play.change.words, &mut devices.out)?.bytes())?;
    Ok(told)
}

// Adds how a command of one word ends.
fn append_command(
    alloc: Global,
    word: &str,
    devices: &mut MemoryDevices,
    told: &mut Text,
) -> Result<(), Trouble> {
    let mut words = Words::new(alloc);
    words.push(Text::from_bytes(alloc, word.as_bytes())?)?;
    let streams = Streams::new(Text::new(alloc));
    let outcome = run_over(alloc, &words, &streams, &mut devices.store)?;
    append_outcome(told, &outcome)
}

fn append_outcome(told: &mut Text, outcome: &Outcome) -> Result<(), Trouble> {
    told.append(outcome.status.bytes())?;
    told.append(b"\n")?;
    told.append(outcome.reply.bytes())?;
    Ok(())
}

/// A line that was done: what it wrote, and what the store tells after it.
#[derive(Drop)]
pub(crate) struct Done {
    pub(crate) reply: Text,
    pub(crate) told: Text,
}

/// A change where nothing fails: the calls of the disk before it and in it, how it ends, what the store tells before it, and its lines.
/// A batch has those of its source; any other change is one line.
#[derive(Drop)]
pub(crate) struct Ends {
    pub(crate) calls_before: u64,
    pub(crate) calls: u64,
    pub(crate) outcome: Outcome,
    pub(crate) first: Text,
    pub(crate) lines: Vec<Done>,
}

impl Ends {
    /// Whether the change makes calls of the disk, and a store tells something else before it than after it.
    pub(crate) fn are_apart(&self) -> bool {
        self.calls > 0 && self.first.bytes() != self.last()
    }

    /// What the store tells after the change.
    pub(crate) fn last(&self) -> &[u8] {
        match self.lines.last() {
            Some(last) => last.told.bytes(),
            None => b"",
        }
    }
}

/// Puts a disk in the place of the one whose calls fail, and an empty one in that of the other, and does there what was done before the
/// change.
pub(crate) fn prepare(
    play: &Play<'_>,
    disk: MemoryDisk,
    devices: &mut MemoryDevices,
) -> Result<(), Trouble> {
    let _store = devices.replace(Side::Store, empty_disk(play.alloc));
    let _out = devices.replace(Side::Out, empty_disk(play.alloc));
    let _empty = devices.replace(play.side, disk);
    act_all(play.alloc, play.before, devices)
}

/// The ends of a change.
pub(crate) fn ends_of(play: &Play<'_>, devices: &mut MemoryDevices) -> Result<Ends, Trouble> {
    prepare(play, empty_disk(play.alloc), devices)?;
    let calls_before = devices.disk(play.side).calls();
    let outcome = act_on(play.alloc, play.change, devices)?;
    let calls = devices.disk(play.side).calls().saturating_sub(calls_before);
    prepare(play, empty_disk(play.alloc), devices)?;
    let first = ask(play, devices)?;
    let lines = lines_done(play, devices)?;
    Ok(Ends {
        calls_before,
        calls,
        outcome,
        first,
        lines,
    })
}

// The lines of a change, each done after those before it.
fn lines_done(play: &Play<'_>, devices: &mut MemoryDevices) -> Result<Vec<Done>, Trouble> {
    let source = play.change.source.bytes();
    let mut lines = Vec::new(play.alloc);
    let mut written: usize = 0;
    for count in 0..=source.len() {
        let front = source.get(..count).unwrap_or(b"");
        if count == source.len() || is_batch(play.change) && front.ends_with(b"\n") {
            let line = line_done(play, front, written, devices)?;
            written = written.saturating_add(line.reply.bytes().len());
            lines.push(line)?;
        }
    }
    Ok(lines)
}

fn is_batch(change: &Act) -> bool {
    match (change.kind, change.words.as_slice()) {
        (Kind::Run, [word]) => word.bytes() == b"batch".as_slice(),
        _ => false,
    }
}

// What comes of the last line of these, before which those before it wrote so many bytes.
fn line_done(
    play: &Play<'_>,
    lines: &[u8],
    written: usize,
    devices: &mut MemoryDevices,
) -> Result<Done, Trouble> {
    prepare(play, empty_disk(play.alloc), devices)?;
    let streams = Streams::new(Text::from_bytes(play.alloc, lines)?);
    let outcome = act_over(play.alloc, play.change, &streams, devices)?;
    let reply = outcome.reply.bytes().get(written..).unwrap_or(b"");
    Ok(Done {
        reply: Text::from_bytes(play.alloc, reply)?,
        told: ask(play, devices)?,
    })
}
