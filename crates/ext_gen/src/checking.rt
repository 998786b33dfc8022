// The files of a host are checked against their stamps.
ghost use Rattle.std.specs.Prelude.{◌≡◌, ◌+◌, ◌^◌, ◌<◌, ◌≤◌, [], ◌∷◌, length, IfOk, IfErr, OnOk};
ghost use Rattle.std.specs.List.{AllByRecursion, flat_map};
ghost use Rattle.ext_disk.specs.Since.{Rests};
ghost use Rattle.ext_host.specs.Drawn.{trees_of};
ghost use Rattle.ext_host.specs.Valid.{IsValidHost};
ghost use Rattle.ext_gen.specs.Checking.{AreChecked, AreCounted, AreServed, IsServed, MayCheckPast, StopsAtFile, files_in, files_of, files_of_both, files_of_host, files_of_past, sizes_of};
ghost use Rattle.ext_gen.specs.Verified.{AreVerified};

use crate::verified::{Verified, verify_once};
use ext_disk::Disk;
use ext_host::{Held, Host, Past, ShelfErr};
use ext_text::Path;
use ext_tree::{Entry, Tree};
use std::alloc::Global;
use std::collections::BTreeMap;

/// Reads every file of a host, those that are seen, those that lie under the view, and those of each past tree in the same
/// way, and compares each with its stamp. Gives how many files there are, and the sum of their sizes. A file that is kept
/// once and listed twice counts twice, but it is read once. The host is valid, and its files are here or kept under numbers
/// up to 262,143.
///
/// # Errors
/// At the first file that is not verified:
///
/// - `Damaged` exactly where it is kept and has another stamp.
/// - `Fault` only where the disk counted one.
/// - Out of memory.
///
/// The disk is as before.
pub fn check<D: Disk>(alloc: Global, disk: &mut D, host: &Host) -> Result<(u64, u64), ShelfErr>
    requires valid { IsValidHost host.now }
    requires served { AreServed (trees_of host.now) }
    ensures checked { IfOk result (AreChecked (D.state disk.old) (files_of_host host.now)) }
    ensures rests { Rests (D.state disk.old) (D.state disk.new) }
    ensures cause { IfErr result (StopsAtFile (D.state disk.old) (D.state disk.new) (files_of_host host.now)) }
{
    let mut verified = BTreeMap::new(alloc);
    let present = check_both(alloc, disk, &mut verified, &host.root, &host.lower)?;
    let past = check_pasts(alloc, disk, &mut verified, host.past.as_slice())?;
    Ok(sum(present, past))
}

// Checks the files of past trees.
fn check_pasts<D: Disk>(
    alloc: Global,
    disk: &mut D,
    verified: &mut Verified,
    pasts: &[Past],
) -> Result<(u64, u64), ShelfErr>
    requires each { AllByRecursion MayCheckPast pasts.now }
    requires few { length pasts.now ≤ 16 }
    requires known { AreVerified (D.state disk.old) verified.old }
    ensures checked { IfOk result (AreChecked (D.state disk.old) (flat_map files_of_past pasts.now)) }
    ensures known { OnOk result (AreVerified (D.state disk.new) verified.new) }
    ensures rests { Rests (D.state disk.old) (D.state disk.new) }
    ensures cause { IfErr result (StopsAtFile (D.state disk.old) (D.state disk.new) (flat_map files_of_past pasts.now)) }
{
    let mut counts = (0, 0);
    'pasts: for past in pasts {
        let more = check_both(alloc, disk, verified, &past.root, &past.lower)?;
        counts = sum(counts, more);
    }
    Ok(counts)
}

// Checks the files of what is seen, and then those of what lies under the view.
fn check_both<D: Disk>(
    alloc: Global,
    disk: &mut D,
    verified: &mut Verified,
    root: &Tree<Held>,
    lower: &Tree<Held>,
) -> Result<(u64, u64), ShelfErr>
    requires counted { AreCounted root.now lower.now }
    requires served { AreServed (root.now ∷ lower.now ∷ []) }
    requires known { AreVerified (D.state disk.old) verified.old }
    ensures checked { IfOk result (AreChecked (D.state disk.old) (files_of_both root.now lower.now)) }
    ensures known { OnOk result (AreVerified (D.state disk.new) verified.new) }
    ensures rests { Rests (D.state disk.old) (D.state disk.new) }
    ensures cause { IfErr result (StopsAtFile (D.state disk.old) (D.state disk.new) (files_of_both root.now lower.now)) }
{
    let seen = check_entries(alloc, disk, verified, root.pairs())?;
    let under = check_entries(alloc, disk, verified, lower.pairs())?;
    Ok(sum(seen, under))
}

// Checks the files of entries.
fn check_entries<D: Disk>(
    alloc: Global,
    disk: &mut D,
    verified: &mut Verified,
    entries: &[(Path, Entry<Held>)],
) -> Result<(u64, u64), ShelfErr>
    requires served { AllByRecursion IsServed (files_of entries.now) }
    requires few { length (files_of entries.now) < 2 ^ 64 }
    requires small { sizes_of (files_of entries.now) < 2 ^ 64 }
    requires known { AreVerified (D.state disk.old) verified.old }
    ensures checked { IfOk result (AreChecked (D.state disk.old) (files_of entries.now)) }
    ensures known { OnOk result (AreVerified (D.state disk.new) verified.new) }
    ensures rests { Rests (D.state disk.old) (D.state disk.new) }
    ensures cause { IfErr result (StopsAtFile (D.state disk.old) (D.state disk.new) (files_of entries.now)) }
{
    let mut counts = (0, 0);
    'entries: for entry in entries {
        let more = check_entry(alloc, disk, verified, &entry.1)?;
        counts = sum(counts, more);
    }
    Ok(counts)
}

// Checks an entry, where it is a file.
fn check_entry<D: Disk>(
    alloc: Global,
    disk: &mut D,
    verified: &mut Verified,
    entry: &Entry<Held>,
) -> Result<(u64, u64), ShelfErr>
    requires served { AllByRecursion IsServed (files_in entry.now) }
    requires known { AreVerified (D.state disk.old) verified.old }
    ensures checked { IfOk result (AreChecked (D.state disk.old) (files_in entry.now)) }
    ensures known { OnOk result (AreVerified (D.state disk.new) verified.new) }
    ensures rests { Rests (D.state disk.old) (D.state disk.new) }
    ensures cause { IfErr result (StopsAtFile (D.state disk.old) (D.state disk.new) (files_in entry.now)) }
{
    match entry {
        Entry::File(_, held) => check_file(alloc, disk, verified, held),
        Entry::Dir(_) | Entry::Opaque(_) | Entry::Link(_, _) | Entry::Hide => Ok((0, 0)),
    }
}

// Checks a file, whose home is read unless it was verified before.
fn check_file<D: Disk>(
    alloc: Global,
    disk: &mut D,
    verified: &mut Verified,
    held: &Held,
) -> Result<(u64, u64), ShelfErr>
    requires served { IsServed held.now }
    requires known { AreVerified (D.state disk.old) verified.old }
    ensures checked { IfOk result (AreChecked (D.state disk.old) (held.now ∷ [])) }
    ensures known { OnOk result (AreVerified (D.state disk.new) verified.new) }
    ensures rests { Rests (D.state disk.old) (D.state disk.new) }
    ensures cause { IfErr result (StopsAtFile (D.state disk.old) (D.state disk.new) (held.now ∷ [])) }
{
    verify_once(alloc, disk, verified, held)?;
    Ok((1, held.stamp().size))
}

// The numbers and the bytes of files, both added up.
fn sum(first: (u64, u64), second: (u64, u64)) -> (u64, u64)
    requires files { first.0 + second.0 < 2 ^ 64 }
    requires bytes { first.1 + second.1 < 2 ^ 64 }
    ensures files { result.0 ≡ first.0 + second.0 }
    ensures bytes { result.1 ≡ first.1 + second.1 }
{
    (first.0 + second.0, first.1 + second.1)
}
