// The files of a coming generation are written where the store lacks them, and their names are synced.
ghost use Rattle.std.specs.Prelude.{◌≡◌, ◌+◌, ◌≤◌, ◌++◌, length, IfErr, IfOk};
ghost use Rattle.std.specs.Option.{option_copied};
ghost use Rattle.ext_depot.specs.Depot.{IsKept};
ghost use Rattle.ext_tree.specs.Tree.{most_entries};
ghost use Rattle.ext_store_files.specs.Names.{IsGeneration, generation_path, next_path};
ghost use Rattle.ext_store_files.specs.Writing.{Holds, IsMade};
ghost use Rattle.ext_homes.specs.Brought.{AreSmall, brought, bytes_of_all};
ghost use Rattle.ext_homes.specs.Giving.{AreHomesBefore, stored_by, trees_before};
ghost use Rattle.ext_gen.specs.Preparing.{most_files};
ghost use Rattle.ext_gen.specs.PreparingCauses.{FillCause};
ghost use Rattle.ext_gen.specs.PreparingPaths.{Makes};
ghost use Rattle.ext_gen.specs.PreparingStages.{Fills, IsAbsent};

use crate::errors::StoreErr;
use crate::preparing::moves::sync_folders;
use ext_depot::Depot;
use ext_disk::Disk;
use ext_homes::{Placed, give_homes};
use ext_host::Host;
use std::alloc::Global;

/// Gives each file of the coming host its home, writes those that the store lacks, and syncs their names in their folders.
///
/// # Errors
/// As where homes are given: at the first file that gets none. There may then be files of the coming generation.
pub(crate) fn fill_generation<D: Disk, P: Depot>(
    alloc: Global,
    disk: &mut D,
    depot: &mut P,
    from: Option<&Host>,
    generation: u32,
    next: Host,
) -> Result<Placed, StoreErr>
    requires number { IsGeneration generation }
    requires entries { length next.root + length next.lower ≤ most_entries }
    requires sizes { AreSmall (next.root ++ next.lower) }
    requires earlier { AreHomesBefore generation (trees_before (option_copied from)) }
    requires empty { Holds (IsMade (generation_path generation)) (D.state disk.old) }
    requires no_next { Holds (IsAbsent next_path) (D.state disk.old) }
    ensures makes { Makes generation (most_files next) (bytes_of_all (brought (next.root ++ next.lower))) (D.state disk.old)
        (D.state disk.new) }
    ensures kept { IsKept (P.state depot.old) (P.state depot.new) }
    ensures fills { IfOk result (Fills (option_copied from.entry) generation next (D.state disk.old) (D.state disk.new)
        (P.state depot.old)) }
    ensures cause { IfErr result (FillCause (D.state disk.old) (D.state disk.new) (P.state depot.old) (P.state depot.new)
        (stored_by (option_copied from.entry) (D.state disk.old)) generation (next.root ++ next.lower)) }
{
    let placed = give_homes(alloc, disk, depot, from, generation, next)?;
    // The bytes of each file are synced by now; its name is once its folder is.
    sync_folders(alloc, disk, generation, placed.files)?;
    Ok(placed)
}
