// Runs that publish, and what they leave.
use crate::acts::MemoryDevices;
use crate::resources::name_in;
use crate::streams::Streams;
use ext_case::{Trouble, append_number};
use ext_disk::MemoryDisk;
use ext_publish::{PubStatus, publish};
use ext_text::{Text, Words};
use ext_trial_disks::{
    Outcome, Spot, append_bad_store, append_field, is_at_or_below, spots_on, whole_text,
};
use std::alloc::Global;

/// How a run of these words ends.
pub(crate) fn publish_over(
    alloc: Global,
    words: &Words,
    streams: &Streams,
    devices: &mut MemoryDevices,
) -> Result<Outcome, Trouble> {
    let mut sink = streams.sink(alloc)?;
    let status = publish(
        alloc,
        words,
        &mut sink,
        &mut devices.store.disk,
        &mut devices.out,
    );
    Ok(Outcome {
        status: status_text(alloc, &status)?,
        reply: Text::from_bytes(alloc, sink.written())?,
    })
}

// A status as a statement states it: its number, of words that ask nothing with the place of the fault, and of a bad store with
// what is wrong.
fn status_text(alloc: Global, status: &PubStatus) -> Result<Text, Trouble> {
    let mut text = Text::new(alloc);
    append_number(alloc, &mut text, u64::from(status.number()))?;
    match status {
        PubStatus::Usage { place } => append_field(alloc, &mut text, *place)?,
        PubStatus::BadStore(bad) => append_bad_store(alloc, &mut text, bad)?,
        _ => {}
    }
    Ok(text)
}

/// What stands on the disk in which is published. While the manifest does not list what the words name, that is without what a run
/// of them may leave there: what is at and below the coming manifest, the tree text and the resource, and the folders above.
pub(crate) fn left_text(
    alloc: Global,
    words: &Words,
    out: &mut MemoryDisk,
) -> Result<Text, Trouble> {
    let [_, folder, name] = words.as_slice() else {
        return Err(Trouble::Unreadable("three words are wanted"));
    };
    let spots = spots_on(alloc, out)?;
    let (folder, name) = (folder.bytes(), name.bytes());
    if spots.iter().any(|spot| lists(spot, folder, name)) {
        return whole_text(alloc, spots.as_slice());
    }
    let mut others = Vec::new(alloc);
    for spot in spots {
        if !is_of_run(&spot, folder, name) {
            others.push(spot)?;
        }
    }
    whole_text(alloc, others.as_slice())
}

// Whether a spot is the manifest, and lists the name.
fn lists(spot: &Spot, folder: &[u8], name: &[u8]) -> bool {
    match &spot.bytes {
        Some(bytes) if below(folder, spot.at.text()) == b"SHA256SUMS".as_slice() => bytes
            .bytes()
            .split(|byte| *byte == b'\n')
            .any(|line| is_named(name_in(line), name)),
        _ => false,
    }
}

// Whether this is the name, or that of its tree text.
fn is_named(found: &[u8], name: &[u8]) -> bool {
    match found.strip_prefix(name) {
        Some(ending) => ending.is_empty() || ending == b".tree".as_slice(),
        None => false,
    }
}

// What follows the folder and a slash in a path; nothing where it is not below the folder.
fn below<'a>(folder: &[u8], at: &'a [u8]) -> &'a [u8] {
    match at.strip_prefix(folder) {
        Some([b'/', rest @ ..]) => rest,
        _ => b"",
    }
}

// Whether a run that has not switched the manifest may leave something else there.
fn is_of_run(spot: &Spot, folder: &[u8], name: &[u8]) -> bool {
    let at = spot.at.text();
    let rest = below(folder, at);
    let first = rest.split(|byte| *byte == b'/').next().unwrap_or(b"");
    first == b"SHA256SUMS.next".as_slice()
        || !first.is_empty() && is_named(first, name)
        || spot.bytes.is_none() && is_at_or_below(folder, at)
}
