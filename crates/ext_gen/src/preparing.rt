// A change is prepared: the coming generation is written beside the current one.
ghost use Rattle.std.specs.Prelude.{◌≡◌, ◌≤◌, ◌++◌, length, IfErr, IfOk, IfSome};
ghost use Rattle.std.specs.Option.{option_copied};
ghost use Rattle.ext_depot.specs.Depot.{IsKept};
ghost use Rattle.ext_disk.specs.Disk.{BothTold};
ghost use Rattle.ext_disk.specs.Since.{Follows};
ghost use Rattle.ext_host.specs.Drawn.{AreDrawnFrom, trees_of};
ghost use Rattle.ext_host.specs.Valid.{IsValidHost};
ghost use Rattle.ext_homes.specs.Giving.{stored_by, trees_before};
ghost use Rattle.ext_index.specs.ValidIndex.{most_index_bytes, written_text};
ghost use Rattle.ext_store_files.specs.Names.{IsGeneration};
ghost use Rattle.ext_store_files.specs.declared.fault.StoreFault.TheVariants as store_faults;
ghost use Rattle.ext_gen.specs.Opened.{IsOpened};
ghost use Rattle.ext_gen.specs.Sound.{KeepsDurably};
ghost use Rattle.ext_gen.specs.Preparing.{ArePastBefore, BringNone, LimitSays, PointsBefore, Prepares, PrepareCause, coming_number, host_before, is_left, is_needed, limit_of, most_bytes_of, most_files, trees_of_pasts};
ghost use Rattle.ext_gen.specs.PreparingCauses.{ChangeCause};
ghost use Rattle.ext_gen.specs.PreparingIndex.{coming_index};
ghost use Rattle.ext_gen.specs.PreparingPaths.{Changes, ChangesTold, Cleans};
ghost use Rattle.ext_gen.specs.PreparingWork.{Changed, Completed};
ghost use Rattle.ext_gen.specs.declared.errors.StoreErr.TheVariants as errors;

mod causes;
mod clearing;
mod filling;
mod finishing;
mod forms;
mod index;
mod limits;
mod moves;
mod needed;

use crate::errors::StoreErr;
use crate::opened::Opened;
use crate::prepared::Prepared;
use crate::preparing::clearing::open_generation;
use crate::preparing::filling::fill_generation;
use crate::preparing::finishing::finish_generation;
use crate::preparing::forms::well_formed_host;
use crate::preparing::limits::coming_generation;
use crate::preparing::needed::needed_generations;
use ext_depot::Depot;
use ext_disk::Disk;
use ext_host::{Host, Plan};
use ext_index::written_text;
use ext_store_files::{current_path, next_path, store_folder};
use std::alloc::Global;

/// Prepares a change of a store: writes and syncs everything of the coming generation beside the current one, and `next`,
/// which names it. What is left to do is one rename, and `commit` makes it.
///
/// The plan's host is valid, apart from homes, the length of its index and the numbers of past trees. Its kept files are
/// those of the generation before, and only what is seen and what lies under it bring files. Past trees are of generations
/// before the coming one. Where the disk tells, it points to the generation before.
///
/// It removes left-overs first: `next`, and each generation that is neither the one before nor has files of that. A file
/// that is kept stays where it is, and the call neither reads nor writes it. A file that is brought takes the least home at
/// which the store has the same bytes. Where there is none, the call copies the file in pieces of at most 65,536 bytes, and
/// hashes what it appends. Its moves come in this order: the folder of the generation, each file, then the folders of the
/// files, the index, the folder of the generation, `next`, the store folder. It syncs each file's bytes when it writes the
/// file, and each folder's names once all is in it. So a stop at any moment leaves the state of before, and no folder names
/// what is not there.
///
/// # Errors
/// A fault of the disk or of the depot comes only where that counted one, and out of memory may come too. Else these come,
/// in this order:
///
/// 1. `Limit`, before anything is done. It is `Index` exactly where the coming index would be longer than 134,217,728 bytes,
///    each file that is brought counted with a home in the coming generation. Else it is `Generations` exactly where the
///    generation before is the last one.
/// 2. `Unfinished` exactly where more than 1,048,576 entries stood at and below the left-overs. So many of them are then
///    removed.
/// 3. At the first file that gets no home, in the order of the index, `Damaged` exactly where a stored file of its stamp is
///    another, and then `NotInDepot` and `Mismatch` exactly where the depot has none, or another one than listed.
///
/// Whatever comes, the state of before stands as durably as it did, and what is written of the coming generation are
/// left-overs.
pub fn prepare<D: Disk, P: Depot>(
    alloc: Global,
    disk: &mut D,
    depot: &mut P,
    from: Option<&Opened>,
    plan: Plan,
) -> Result<Prepared, StoreErr>
    requires valid { IsValidHost plan.next }
    requires drawn { AreDrawnFrom (trees_before (host_before (option_copied from))) (trees_of plan.next) }
    requires kept { BringNone (trees_of_pasts plan.next.past) }
    requires past { ArePastBefore (coming_number (option_copied from)) plan.next.past }
    requires points { PointsBefore (option_copied from) (D.state disk.old) }

    // However it ends, what stood durably still does, and so it does after a stop at any moment since.
    ensures follows { Follows (D.state disk.old) (D.state disk.new) }
    ensures durable { BothTold KeepsDurably (D.state disk.old).told (D.state disk.new).told }
    ensures changes { BothTold (ChangesTold (is_left (option_copied from.entry)) (coming_number (option_copied from.entry))
        (most_files plan.next)
        (most_bytes_of (coming_number (option_copied from.entry)) plan.next)) (D.state disk.old).told (D.state disk.new).told }
    ensures kept { IsKept (P.state depot.old) (P.state depot.new) }

    ensures limit { LimitSays (limit_of (option_copied from.entry) plan.next) result }
    ensures cleans { Cleans (is_left (option_copied from.entry)) result (D.state disk.old) (D.state disk.new) }
    ensures prepared { IfOk result (Prepares (option_copied from.entry) plan.next (D.state disk.old) (D.state disk.new)
        (P.state depot.old)) }
    ensures cause { IfErr result (PrepareCause (option_copied from.entry) plan.next (D.state disk.old) (D.state disk.new)
        (P.state depot.old) (P.state depot.new)) }
{
    write_coming(alloc, disk, depot, from, plan.next)
}

// Prepares the host that is wanted, in paths of the store.
fn write_coming<D: Disk, P: Depot>(
    alloc: Global,
    disk: &mut D,
    depot: &mut P,
    from: Option<&Opened>,
    next: Host,
) -> Result<Prepared, StoreErr>
    requires valid { IsValidHost next }
    requires drawn { AreDrawnFrom (trees_before (host_before (option_copied from))) (trees_of next) }
    requires kept { BringNone (trees_of_pasts next.past) }
    requires past { ArePastBefore (coming_number (option_copied from)) next.past }
    ensures changes { Changes (is_needed (option_copied from.entry)) (coming_number (option_copied from.entry)) (most_files next)
        (most_bytes_of (coming_number (option_copied from.entry)) next) (D.state disk.old) (D.state disk.new) }
    ensures kept { IsKept (P.state depot.old) (P.state depot.new) }
    ensures limit { LimitSays (limit_of (option_copied from.entry) next) result }
    ensures cleans { Cleans (is_left (option_copied from.entry)) result (D.state disk.old) (D.state disk.new) }
    ensures completed { IfOk result (Completed (option_copied from.entry) next (D.state disk.old) (D.state disk.new) (P.state depot.old)) }
    ensures cause { IfErr result (PrepareCause (option_copied from.entry) next (D.state disk.old) (D.state disk.new)
        (P.state depot.old) (P.state depot.new)) }
{
    let generation = coming_generation(from, &next)?;
    let host = change_store(alloc, disk, depot, from, generation, next)?;
    prepared(alloc, generation, host)
}

// Writes the coming generation of this number.
fn change_store<D: Disk, P: Depot>(
    alloc: Global,
    disk: &mut D,
    depot: &mut P,
    from: Option<&Opened>,
    generation: u32,
    next: Host,
) -> Result<Host, StoreErr>
    requires valid { IsValidHost next }
    requires drawn { AreDrawnFrom (trees_before (host_before (option_copied from))) (trees_of next) }
    requires kept { BringNone (trees_of_pasts next.past) }
    requires past { ArePastBefore generation next.past }
    requires number { generation ≡ coming_number (option_copied from) }
    requires positive { IsGeneration generation }
    requires fits { length (coming_index generation next) ≤ most_index_bytes }
    ensures changes { Changes (is_needed (option_copied from.entry)) generation (most_files next)
        (most_bytes_of generation next) (D.state disk.old) (D.state disk.new) }
    ensures kept { IsKept (P.state depot.old) (P.state depot.new) }
    ensures cleans { Cleans (is_left (option_copied from.entry)) result (D.state disk.old) (D.state disk.new) }
    ensures changed { IfOk result (Changed (option_copied from.entry) generation next (D.state disk.old) (D.state disk.new)
        (P.state depot.old)) }
    ensures cause { IfErr result (ChangeCause (D.state disk.old) (D.state disk.new) (P.state depot.old) (P.state depot.new)
        (stored_by (host_before (option_copied from.entry)) (D.state disk.old)) generation (next.root ++ next.lower)) }
{
    let before = host_of(from);
    let needed = needed_generations(alloc, from)?;
    open_generation(alloc, disk, &needed, generation)?;
    let placed = fill_generation(alloc, disk, depot, before, generation, next)?;
    // The index can be written of a host whose names, paths and digests are such.
    well_formed_host(&placed.host);
    finish_generation(alloc, disk, generation, &placed.host)?;
    Ok(placed.host)
}

// The host of the generation before.
fn host_of<'a>(from: Option<&'a Opened>) -> Option<&'a Host>
    ensures host { option_copied result ≡ host_before (option_copied from.entry) }
    ensures opened { IfSome (option_copied from.entry) IsOpened }
{
    match from {
        None => None,
        Some(opened) => Some(opened.host()),
    }
}

// What is prepared, with the paths that a switch needs.
fn prepared(alloc: Global, generation: u32, host: Host) -> Result<Prepared, StoreErr>
    requires { IsOpened (record { number = generation; text = written_text host; host = host }) }
    ensures prepared { IfOk result (λ coming. coming ≡ record { number = generation; text = written_text host; host = host }) }
    ensures cause { IfErr result (λ e. e ≡ errors.Fault store_faults.OutOfMemory) }
{
    let text = written_text(&host);
    let opened = Opened::new(host, generation, text);
    let next = next_path(alloc)?;
    let current = current_path(alloc)?;
    Ok(Prepared::new(opened, store_folder(alloc), next, current))
}
