// The switch from one generation to the next.
ghost use Rattle.std.specs.Prelude.{◌≡◌, IfOk};
ghost use Rattle.ext_text.specs.Causes.{HasCause};
ghost use Rattle.ext_disk.specs.Disk.{BothTold};
ghost use Rattle.ext_disk.specs.Since.{Follows};
ghost use Rattle.ext_gen.specs.Committing.{CommitsTold, HasPaths, MayCommit, PointsAfter, SwitchesNow};
ghost use Rattle.ext_gen.specs.Opened.{Generation};

use crate::opened::Opened;
use crate::prepared::Prepared;
use crate::syncing::sync_store;
use ext_disk::Disk;
use ext_io::Failed;
use ext_text::Path;

/// Switches a store to the generation that is prepared in it: renames `next` to `current`, and then syncs the store folder.
/// Where the disk tells, it has to be as the preparation left it. The call takes no memory.
///
/// # Errors
/// The disk had a fault. A store that durably stood for a state, and was ready for another, is sound and stands for one of both,
/// and so does each tree that a stop since the call began may have left.
pub fn commit<D: Disk>(disk: &mut D, prepared: Prepared) -> Result<Opened, Failed>
    requires { MayCommit prepared (D.state disk.old) }
    ensures opened { IfOk result (λ opened. opened ≡ prepared) }
    ensures follows { Follows (D.state disk.old) (D.state disk.new) }
    ensures now { BothTold SwitchesNow (D.state disk.old).told (D.state disk.new).told }
    ensures points { PointsAfter result prepared (D.state disk.new) }
    ensures stops { BothTold (CommitsTold result) (D.state disk.old).told (D.state disk.new).told }
    ensures cause { HasCause result (D.state disk.old).faults (D.state disk.new).faults }
{
    switch(disk, &prepared.folder, &prepared.next, &prepared.current)?;
    Ok(prepared.into_opened())
}

// Renames `next` to `current` and syncs the store folder. Before this the new generation is synced whole, `next` too: so a
// stop leaves the old `current` or the new one, and whichever it is, all of its generation.
fn switch<D: Disk>(disk: &mut D, folder: &Path, next: &Path, current: &Path) -> Result<(), Failed>
    requires paths { HasPaths folder.now next.now current.now }
    requires prepared { (generation : Generation) × MayCommit generation (D.state disk.old) }
    ensures follows { Follows (D.state disk.old) (D.state disk.new) }
    ensures now { BothTold SwitchesNow (D.state disk.old).told (D.state disk.new).told }
    ensures points { (generation : Generation) → MayCommit generation (D.state disk.old)
        → PointsAfter result generation (D.state disk.new) }
    ensures stops { BothTold (CommitsTold result) (D.state disk.old).told (D.state disk.new).told }
    ensures cause { HasCause result (D.state disk.old).faults (D.state disk.new).faults }
{
    disk.rename(next, current)?;
    sync_store(disk, folder)
}
