// The first moves of a change: left-overs are removed, and the folder of the coming generation is made.
ghost use Rattle.std.specs.Prelude.{◌≡◌, false, IfErr, IfSome, OnOk};
ghost use Rattle.ext_store_files.specs.LeftOvers.{is_left_path, has_generation};
ghost use Rattle.ext_store_files.specs.Names.{IsGeneration};
ghost use Rattle.ext_store_files.specs.Writing.{Holds};
ghost use Rattle.ext_gen.specs.PreparingCauses.{ClearCause};
ghost use Rattle.ext_gen.specs.PreparingPaths.{Changes, Cleans};
ghost use Rattle.ext_gen.specs.PreparingStages.{IsGenerationOpen};

use crate::errors::StoreErr;
use crate::preparing::moves::make_generation;
use ext_disk::Disk;
use ext_store_files::remove_left_overs;
use std::alloc::Global;
use std::collections::BTreeSet;

/// Removes the left-overs, of which the coming generation may be one, and makes the folder of that.
///
/// # Errors
/// - `Unfinished` exactly where more than 1,048,576 entries stood at and below the left-overs. So many of them were removed.
/// - A fault of the disk, and out of memory. Some of them may have been removed.
pub(crate) fn open_generation<D: Disk>(
    alloc: Global,
    disk: &mut D,
    needed: &BTreeSet<u32>,
    generation: u32,
) -> Result<(), StoreErr>
    requires number { IsGeneration generation }
    requires coming { has_generation needed.now generation ≡ false }
    ensures changes { Changes (has_generation needed.now) generation 0 0 (D.state disk.old) (D.state disk.new) }
    ensures open { OnOk result (Holds (IsGenerationOpen (has_generation needed.now) generation) (D.state disk.new)) }
    ensures cleans { Cleans (is_left_path (has_generation needed.now)) result (D.state disk.old) (D.state disk.new) }
    ensures cause { IfErr result (ClearCause (D.state disk.old).faults (D.state disk.new).faults) }
{
    // What is left of an earlier change goes before anything is written. The store stands durably for what it stands for now,
    // so that none of it is needed after a stop.
    remove_left_overs(alloc, disk, needed)?;
    make_generation(alloc, disk, generation)
}
