// A store is opened.
ghost use Rattle.std.specs.Prelude.{IfOk, IfErr, IfSome};
ghost use Rattle.ext_disk.specs.Disk.{BothTold, now};
ghost use Rattle.ext_disk.specs.Since.{Follows, Rests};
ghost use Rattle.ext_store_files.specs.Names.{IsGeneration, current_path, index_path};
ghost use Rattle.ext_gen.specs.Opening.{IndexOf, IndexSays, KeepsNow, NamesOf, NumberSays, OpenCause, OpenSays, OpensTold, TextSays};

use crate::errors::StoreErr;
use crate::opened::Opened;
use crate::syncing::sync_store;
use ext_disk::Disk;
use ext_index::{MOST_INDEX_BYTES, read_index};
use ext_store_files::{Found, current_path, index_path, read_current, read_file, store_folder};
use std::alloc::Global;

/// The most bytes of `current`: the name of a generation and a newline.
const MOST_CURRENT: usize = 13;

/// The current generation of the store on a disk, none exactly where there is no `current`. Its index is read, no further than
/// one byte past the most bytes of one, and no other file but `current`.
///
/// It syncs the store folder first: where a switch was cut off, what the disk stands for now is synced so before anything
/// rests on it.
///
/// # Errors
/// - `Broken` exactly where `current` is there and names no generation (line 0), or where its index is none (its first
///   faulty line, 1 where it is no file or too long).
/// - A fault of the disk, only where it counted one.
/// - Out of memory.
///
/// What stands on the disk is as before, whatever comes.
pub fn open<D: Disk>(alloc: Global, disk: &mut D) -> Result<Option<Opened>, StoreErr>
    ensures follows { Follows (D.state disk.old) (D.state disk.new) }
    ensures now { BothTold KeepsNow (D.state disk.old).told (D.state disk.new).told }
    ensures says { IfSome (D.state disk.old).told (λ d. OpenSays result (now d.places)) }
    ensures stops { BothTold (OpensTold result) (D.state disk.old).told (D.state disk.new).told }
    ensures cause { IfErr result (OpenCause (D.state disk.old).faults (D.state disk.new).faults) }
{
    let folder = store_folder(alloc);
    sync_store(disk, &folder)?;
    read_store(alloc, disk)
}

// What the store points to.
fn read_store<D: Disk>(alloc: Global, disk: &mut D) -> Result<Option<Opened>, StoreErr>
    ensures says { IfSome (D.state disk.old).told (λ d. OpenSays result (now d.places)) }
    ensures rests { Rests (D.state disk.old) (D.state disk.new) }
    ensures cause { IfErr result (OpenCause (D.state disk.old).faults (D.state disk.new).faults) }
{
    match read_number(alloc, disk)? {
        None => Ok(None),
        Some(generation) => Ok(Some(read_generation(alloc, disk, generation)?)),
    }
}

// The number of the generation that `current` names, where it is there.
fn read_number<D: Disk>(alloc: Global, disk: &mut D) -> Result<Option<u32>, StoreErr>
    ensures number { IfOk result (λ number. IfSome number IsGeneration) }
    ensures says { IfSome (D.state disk.old).told (λ d. NumberSays (d.places current_path).node result) }
    ensures rests { Rests (D.state disk.old) (D.state disk.new) }
    ensures cause { IfErr result (OpenCause (D.state disk.old).faults (D.state disk.new).faults) }
{
    let path = current_path(alloc)?;
    let found = read_file(alloc, disk, &path, MOST_CURRENT)?;
    number_found(found)
}

// The number of the generation that is named by what was found at `current`.
fn number_found(found: Found) -> Result<Option<u32>, StoreErr>
    ensures number { IfOk result (λ number. IfSome number IsGeneration) }
    ensures names { NamesOf found result }
{
    match found {
        Found::Absent => Ok(None),
        Found::Folder | Found::TooLong => Err(StoreErr::Broken { line: 0 }),
        Found::File(text) => match read_current(text.bytes()) {
            Some(number) => Ok(Some(number)),
            None => Err(StoreErr::Broken { line: 0 }),
        },
    }
}

// The generation of this number, by its index.
fn read_generation<D: Disk>(
    alloc: Global,
    disk: &mut D,
    generation: u32,
) -> Result<Opened, StoreErr>
    requires { IsGeneration generation }
    ensures says { IfSome (D.state disk.old).told (λ d. IndexSays generation (d.places (index_path generation)).node result) }
    ensures rests { Rests (D.state disk.old) (D.state disk.new) }
    ensures cause { IfErr result (OpenCause (D.state disk.old).faults (D.state disk.new).faults) }
{
    let path = index_path(alloc, generation)?;
    let found = read_file(alloc, disk, &path, MOST_INDEX_BYTES)?;
    generation_found(alloc, found, generation)
}

// The generation whose index is what was found where it should be.
fn generation_found(alloc: Global, found: Found, generation: u32) -> Result<Opened, StoreErr>
    requires { IsGeneration generation }
    ensures { IndexOf generation found result }
{
    match found {
        Found::File(text) => read_text(alloc, text.bytes(), generation),
        Found::Absent | Found::Folder | Found::TooLong => Err(StoreErr::Broken { line: 1 }),
    }
}

// The generation whose index is this text.
fn read_text(alloc: Global, text: &[u8], generation: u32) -> Result<Opened, StoreErr>
    requires { IsGeneration generation }
    ensures { TextSays generation text.now result }
{
    let (host, number) = read_index(alloc, text, generation)?;
    Ok(Opened::new(host, generation, number))
}
