// The removal of what an earlier change left in the store folder.
ghost use Rattle.std.specs.Prelude.{◌≡◌, [], ◌^◌, IfErr, filter};
ghost use Rattle.std.specs.Ordering.{nat_cmp};
ghost use Rattle.std.specs.BTreeSet.{contains};
ghost use Rattle.ext_disk.specs.Disk.{BothTold};
ghost use Rattle.ext_disk.specs.Fixed.{Spares};
ghost use Rattle.ext_store_files.specs.LeftOvers.{is_left_over, is_left_path, has_generation, is_left_generation, most_left_overs};
ghost use Rattle.ext_store_files.specs.Removal.{is_below_any, AppendsNothing, CleanCause, Removes, Clears};

use crate::errors::CleanErr;
use crate::names::generation_of;
use crate::paths::store_folder;
use crate::removal::clear_all;
use ext_disk::Disk;
use ext_text::{Name, Names, Path};
use std::alloc::Global;
use std::collections::BTreeSet;

/// The most left-over entries that are removed at a time.
pub const MOST_LEFT_OVERS: u32 = 1_048_576;

/// Removes the left-overs from the store folder, with all below them: `next`, and each generation that is not needed. It
/// leaves other names alone. It removes at most 1,048,576 entries, what lies deeper first.
///
/// A change calls it before it writes, and spares the current generation and those of its files' homes. What is needed, and
/// each path that is no left-over's nor below one, stays as it was, and each of them that no stop could have changed stays
/// so. Nothing is appended.
///
/// # Errors
/// - `Unfinished` exactly where more than 1,048,576 entries stood at and below the left-overs. So many of them were removed.
/// - A fault of the disk, only where it counted one, and out of memory. Some of them may have been removed.
pub fn remove_left_overs<D: Disk>(
    alloc: Global,
    disk: &mut D,
    needed: &BTreeSet<u32>,
) -> Result<(), CleanErr>
    ensures spares { Spares (is_left_path (has_generation needed.now)) (D.state disk.old) (D.state disk.new) }
    ensures removes { BothTold (Removes most_left_overs (is_left_path (has_generation needed.now)) result) (D.state disk.old).told
        (D.state disk.new).told }
    ensures appended { BothTold AppendsNothing (D.state disk.old).told (D.state disk.new).told }
    ensures cause { IfErr result (CleanCause (D.state disk.old).faults (D.state disk.new).faults) }
{
    let mut most = MOST_LEFT_OVERS;
    clear_left(alloc, disk, needed, &mut most)
}

/// Removes what stands at and below these names in a folder: at most 1,048,576 entries, what lies deeper first.
///
/// Each path elsewhere stays as it was, and each of them that no stop could have changed stays so. Nothing is appended.
///
/// # Errors
/// - `Unfinished` exactly where more than 1,048,576 entries stood there. So many of them were removed.
/// - A fault of the disk, only where it counted one, and out of memory. Some of them may have been removed.
pub fn remove_below<D: Disk>(
    alloc: Global,
    disk: &mut D,
    dir: &Path,
    names: &[Name],
) -> Result<(), CleanErr>
    ensures spares { Spares (is_below_any dir.now names.now) (D.state disk.old) (D.state disk.new) }
    ensures removes { BothTold (Removes most_left_overs (is_below_any dir.now names.now) result) (D.state disk.old).told
        (D.state disk.new).told }
    ensures appended { BothTold AppendsNothing (D.state disk.old).told (D.state disk.new).told }
    ensures cause { IfErr result (CleanCause (D.state disk.old).faults (D.state disk.new).faults) }
{
    let mut most = MOST_LEFT_OVERS;
    clear_all(alloc, disk, dir, names, &mut most)
}

// Removes the left-overs, of which so many may be.
fn clear_left<D: Disk>(
    alloc: Global,
    disk: &mut D,
    needed: &BTreeSet<u32>,
    most: &mut u32,
) -> Result<(), CleanErr>
    ensures clears { Clears (is_left_path (has_generation needed.now)) result most.old most.new (D.state disk.old) (D.state disk.new) }
    ensures cause { IfErr result (CleanCause (D.state disk.old).faults (D.state disk.new).faults) }
{
    let folder = store_folder(alloc);
    let names = left_names(disk.list(alloc, &folder)?, needed);
    clear_all(alloc, disk, &folder, names.as_slice(), most)
}

// The left-overs among the names.
fn left_names(names: Names, needed: &BTreeSet<u32>) -> Vec<Name>
    ensures { result.items ≡ filter (is_left_over (has_generation needed.now)) names }
{
    let mut left = names.into_vec();
    left.retain(|name| is_left_over(name.bytes(), needed));
    left
}

/// Whether the name is a left-over's, where these generations are needed: it is `next`, or the name of another generation.
pub fn is_left_over(name: &[u8], needed: &BTreeSet<u32>) -> bool
    ensures { result ≡ is_left_over (has_generation needed.now) name.now }
{
    name.cmp(b"next".as_slice()).is_eq() || is_left_generation(generation_of(name), needed)
}

// Whether there is a generation, and it is not needed.
fn is_left_generation(generation: Option<u32>, needed: &BTreeSet<u32>) -> bool
    ensures { result ≡ is_left_generation (has_generation needed.now) generation }
{
    match generation {
        Some(number) => !needed.contains(&number),
        None => false,
    }
}
