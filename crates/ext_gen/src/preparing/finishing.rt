// The last moves of a change before the switch: the index, and then `next`.
ghost use Rattle.std.specs.Prelude.{◌+◌, length, IfErr, OnOk};
ghost use Rattle.ext_disk.specs.Disk.{BothTold};
ghost use Rattle.ext_store_files.specs.Appended.{Raises};
ghost use Rattle.ext_store_files.specs.Names.{IsGeneration, current_text, generation_path, index_path, next_path};
ghost use Rattle.ext_store_files.specs.Writing.{Holds};
ghost use Rattle.ext_gen.specs.PreparingCauses.{MoveCause};
ghost use Rattle.ext_gen.specs.PreparingIndex.{coming_index};
ghost use Rattle.ext_gen.specs.PreparingPaths.{Makes};
ghost use Rattle.ext_gen.specs.PreparingStages.{CompletesGeneration, IsAbsent, IsFolderAt};

use crate::errors::StoreErr;
use crate::preparing::moves::{put_index, put_next};
use ext_disk::Disk;
use ext_host::Host;
use std::alloc::Global;

/// Writes the index of the coming generation, in which the files stand and are synced, and `next`.
///
/// # Errors
/// Out of memory, or a fault of the disk: the index and `next` are there or not, and have any bytes.
pub(crate) fn finish_generation<D: Disk>(
    alloc: Global,
    disk: &mut D,
    generation: u32,
    host: &Host,
) -> Result<(), StoreErr>
    requires number { IsGeneration generation }
    requires folder { Holds (IsFolderAt (generation_path generation)) (D.state disk.old) }
    requires no_index { Holds (IsAbsent (index_path generation)) (D.state disk.old) }
    requires no_next { Holds (IsAbsent next_path) (D.state disk.old) }
    ensures makes { Makes generation 0 (length (coming_index generation host.now) + length (current_text generation))
        (D.state disk.old) (D.state disk.new) }
    ensures completes { OnOk result (BothTold (CompletesGeneration generation (coming_index generation host.now))
        (D.state disk.old).told (D.state disk.new).told) }
    ensures raises { OnOk result (Raises (length (coming_index generation host.now) + length (current_text generation))
        (D.state disk.old) (D.state disk.new)) }
    ensures cause { IfErr result (MoveCause (D.state disk.old).faults (D.state disk.new).faults) }
{
    // The folder of the generation is synced with its index, so that all of the generation is there before `next` names it.
    put_index(alloc, disk, generation, host)?;
    put_next(alloc, disk, generation)
}
