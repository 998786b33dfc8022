ghost use Rattle.std.specs.Prelude.{◌≡◌, ◌++◌, map, OnOk};
ghost use Rattle.std.specs.Option.{option_copied};
ghost use Rattle.ext_choice.specs.Steps.{after_transfer, gone_paths, left_paths};
ghost use Rattle.ext_choice.specs.Vacuum.{AreByTransfer, Divides, of_transfer};

use crate::room_err::RoomErr;
use crate::rooming::room;
use ext_installed::{Instance, Instances};
use ext_text::{OutOfMemory, Path, Paths, SortedPaths};
use ext_transfer::Transfer;
use ext_versions::Versions;
use std::alloc::Global;

/// What becomes of the instances of some transfers.
#[derive(Drop)]
pub struct Division {
    /// The paths of those that go, in path order and each once.
    pub removed: SortedPaths,
    /// The paths of all others, in the order of the instances. A path of which one transfer has an instance that goes, and
    /// another one that stays, is among both.
    pub staying: Paths,
}

/// The instances of transfers divided into those that go, so that each target has room, and those that stay. An instance goes
/// where its version is one of those that [`room`] gives for its transfer. With a version that is coming there is room for it.
///
/// The instances stand in the order of their transfers, as [`installed`](ext_installed::installed) gives them. An instance of a
/// place at which there is no transfer stays.
///
/// The work grows with the instances and the protected versions, times logarithms.
///
/// # Errors
/// - `NoRoom` for the first transfer that lacks room, as [`room`] says. Then nothing goes.
/// - `OutOfMemory`.
pub fn divide(
    alloc: Global,
    transfers: &[Transfer],
    installed: &Instances,
    coming: Option<&[u8]>,
) -> Result<Division, RoomErr>
    requires { AreByTransfer 0 installed.now.items }
    ensures { Divides transfers.now (option_copied coming.entry) installed.now.items result }
{
    let mut removed = Vec::new(alloc);
    let mut staying = Vec::new(alloc);
    let mut rest = installed.items.as_slice();
    'transfers: for (place, transfer) in transfers.iter().enumerate() {
        let (items, later) = split_after(rest, place);
        match room(alloc, transfer, items, coming) {
            Err(refused) => return Err(refused),
            Ok(gone) => append_each(&mut removed, &mut staying, items, &gone)?,
        }
        rest = later;
    }
    append_paths(&mut staying, rest)?;
    Ok(Division {
        removed: SortedPaths::of(removed),
        staying: Paths::from_vec(staying),
    })
}

// The instances of the transfer at a place, which come first, and the later ones.
fn split_after(items: &[Instance], place: usize) -> (&[Instance], &[Instance])
    requires { AreByTransfer place items.now }
    ensures here { result.0.now ≡ of_transfer place items.now }
    ensures later { result.1.now ≡ after_transfer place items.now }
{
    let count = items.partition_point(|item| item.transfer <= place);
    items.split_at(count)
}

// Appends the path of each instance to those that go, where its version goes, or else to those that stay.
fn append_each(
    removed: &mut Vec<Path>,
    staying: &mut Vec<Path>,
    items: &[Instance],
    gone: &Versions,
) -> Result<(), OutOfMemory>
    ensures removed { OnOk result (removed.new.items ≡ removed.old.items ++ gone_paths gone.now items.now) }
    ensures staying { OnOk result (staying.new.items ≡ staying.old.items ++ left_paths gone.now items.now) }
{
    'items: for item in items {
        let path = item.path.copy()?;
        if gone.has(item.version.bytes()) {
            removed.push(path)?;
        } else {
            staying.push(path)?;
        }
    }
    Ok(())
}

// Appends the paths of instances.
fn append_paths(paths: &mut Vec<Path>, items: &[Instance]) -> Result<(), OutOfMemory>
    ensures { OnOk result (paths.new.items ≡ paths.old.items ++ map (λ item. item.path) items.now) }
{
    'items: for item in items {
        paths.push(item.path.copy()?)?;
    }
    Ok(())
}
