// The moves of a change, one by one: the folder of the coming generation is made, the folders of its files are synced, then
// its index is written, and last `next`. Each comes after what it names: a stop between two of them leaves the store as it
// was before the change.
ghost use Rattle.std.specs.Prelude.{◌≡◌, ◌≤◌, false, length, [], IfOk, IfErr, OnOk};
ghost use Rattle.ext_text.specs.Causes.{HasCause};
ghost use Rattle.ext_text.specs.Path.{is_prefix};
ghost use Rattle.ext_disk.specs.Calls.{make_file, MayCall};
ghost use Rattle.ext_disk.specs.Disk.{BothTold};
ghost use Rattle.ext_host.specs.Home.{most_files_of_generation};
ghost use Rattle.ext_store_files.specs.Appended.{Raises};
ghost use Rattle.ext_store_files.specs.Names.{IsFileNumber, current_text, generation_path, home_folder, index_path, next_path};
ghost use Rattle.ext_store_files.specs.Writing.{is_at, nowhere, Holds, IsMade, SyncsIn, Works};
ghost use Rattle.ext_gen.specs.PreparingCauses.{MoveCause};
ghost use Rattle.ext_gen.specs.PreparingIndex.{coming_index};
ghost use Rattle.ext_gen.specs.PreparingStages.{AreSynced, HasHomeFolders, IsAbsent, IsFolderAt, IsPutSynced};

use crate::errors::StoreErr;
use crate::preparing::index::coming_index;
use ext_disk::Disk;
use ext_host::Host;
use ext_io::Failed;
use ext_lines::append_decimal;
use ext_store_files::{
    FILES_OF_A_FOLDER, generation_path, home_folder, index_path, make_folder, next_path,
    store_folder, sync_folder, write_file,
};
use ext_text::{OutOfMemory, Path};
use std::alloc::Global;

/// Makes the folder of the coming generation.
///
/// # Errors
/// Out of memory, or a fault of the disk: the folder is there or not.
pub(crate) fn make_generation<D: Disk>(
    alloc: Global,
    disk: &mut D,
    generation: u32,
) -> Result<(), StoreErr>
    requires { Holds (IsAbsent (generation_path generation)) (D.state disk.old) }
    ensures works { Works (is_prefix (generation_path generation)) (is_at (generation_path generation)) 0 (D.state disk.old)
        (D.state disk.new) }
    ensures made { OnOk result (Holds (IsMade (generation_path generation)) (D.state disk.new)) }
    ensures cause { IfErr result (MoveCause (D.state disk.old).faults (D.state disk.new).faults) }
{
    let folder = generation_path(alloc, generation)?;
    make_folder(disk, &folder)?;
    Ok(())
}

/// Syncs the names in the folders of so many files of the coming generation.
///
/// # Errors
/// Out of memory, or a fault of the disk. What stands is as before.
pub(crate) fn sync_folders<D: Disk>(
    alloc: Global,
    disk: &mut D,
    generation: u32,
    files: u32,
) -> Result<(), StoreErr>
    requires numbers { files ≤ most_files_of_generation }
    requires folders { Holds (HasHomeFolders generation files) (D.state disk.old) }
    ensures works { Works nowhere nowhere 0 (D.state disk.old) (D.state disk.new) }
    ensures synced { OnOk result (Holds (AreSynced generation files) (D.state disk.new)) }
    ensures cause { IfErr result (MoveCause (D.state disk.old).faults (D.state disk.new).faults) }
{
    let mut file = 0;
    'folders: while file < files {
        sync_home_folder(alloc, disk, generation, file)?;
        file += FILES_OF_A_FOLDER;
    }
    Ok(())
}

// Syncs the names in the folder of a file.
fn sync_home_folder<D: Disk>(
    alloc: Global,
    disk: &mut D,
    generation: u32,
    file: u32,
) -> Result<(), StoreErr>
    requires number { IsFileNumber file }
    requires folder { Holds (IsFolderAt (home_folder generation file)) (D.state disk.old) }
    ensures works { Works nowhere nowhere 0 (D.state disk.old) (D.state disk.new) }
    ensures syncs { OnOk result (BothTold (SyncsIn (home_folder generation file)) (D.state disk.old).told (D.state disk.new).told) }
    ensures cause { IfErr result (MoveCause (D.state disk.old).faults (D.state disk.new).faults) }
{
    let folder = home_folder(alloc, generation, file)?;
    sync_folder(disk, &folder)?;
    Ok(())
}

/// Writes the index of the coming generation and syncs it, and the names in the folder of the generation.
///
/// # Errors
/// Out of memory, or a fault of the disk: the index is there or not, and has any bytes.
pub(crate) fn put_index<D: Disk>(
    alloc: Global,
    disk: &mut D,
    generation: u32,
    host: &Host,
) -> Result<(), StoreErr>
    requires folder { Holds (IsFolderAt (generation_path generation)) (D.state disk.old) }
    requires free { Holds (IsAbsent (index_path generation)) (D.state disk.old) }
    ensures works { Works (is_prefix (index_path generation)) (is_at (index_path generation))
        (length (coming_index generation host.now)) (D.state disk.old) (D.state disk.new) }
    ensures put { OnOk result (Holds (IsPutSynced (generation_path generation) (index_path generation)
        (coming_index generation host.now)) (D.state disk.new)) }
    ensures raises { OnOk result (Raises (length (coming_index generation host.now)) (D.state disk.old) (D.state disk.new)) }
    ensures cause { IfErr result (MoveCause (D.state disk.old).faults (D.state disk.new).faults) }
{
    let text = coming_index(alloc, host, generation)?;
    let path = index_path(alloc, generation)?;
    let folder = generation_path(alloc, generation)?;
    put_synced(disk, &folder, &path, text.bytes())?;
    Ok(())
}

/// Writes `next`, which names the coming generation, and syncs it, and the names in the store folder.
///
/// # Errors
/// Out of memory, or a fault of the disk: the file is there or not, and has any bytes.
pub(crate) fn put_next<D: Disk>(
    alloc: Global,
    disk: &mut D,
    generation: u32,
) -> Result<(), StoreErr>
    requires { Holds (IsAbsent next_path) (D.state disk.old) }
    ensures works { Works (is_prefix next_path) (is_at next_path) (length (current_text generation)) (D.state disk.old) (D.state disk.new) }
    ensures put { OnOk result (Holds (IsPutSynced [] next_path (current_text generation)) (D.state disk.new)) }
    ensures raises { OnOk result (Raises (length (current_text generation)) (D.state disk.old) (D.state disk.new)) }
    ensures cause { IfErr result (MoveCause (D.state disk.old).faults (D.state disk.new).faults) }
{
    let text = current_text(alloc, generation)?;
    let path = next_path(alloc)?;
    let folder = store_folder(alloc);
    put_synced(disk, &folder, &path, text.as_slice())?;
    Ok(())
}

// The text of `next`, and of the coming `current`: the name of the generation and a newline.
fn current_text(alloc: Global, generation: u32) -> Result<Vec<u8>, OutOfMemory>
    ensures { IfOk result (λ text. text.items ≡ current_text generation) }
{
    let mut text = Vec::from_slice(alloc, b"g-")?;
    append_decimal(&mut text, u64::from(generation))?;
    text.push(b'\n')?;
    Ok(text)
}

// Writes a file into a folder, and syncs its bytes and then the names in the folder.
fn put_synced<D: Disk>(disk: &mut D, folder: &Path, path: &Path, bytes: &[u8]) -> Result<(), Failed>
    requires free { MayCall (make_file path.now) (D.state disk.old) }
    requires folder { Holds (IsFolderAt folder.now) (D.state disk.old) }
    requires other { is_at path.now folder.now ≡ false }
    ensures works { Works (is_prefix path.now) (is_at path.now) (length bytes.now) (D.state disk.old) (D.state disk.new) }
    ensures put { OnOk result (Holds (IsPutSynced folder.now path.now bytes.now) (D.state disk.new)) }
    ensures raises { OnOk result (Raises (length bytes.now) (D.state disk.old) (D.state disk.new)) }
    ensures cause { HasCause result (D.state disk.old).faults (D.state disk.new).faults }
{
    write_file(disk, path, bytes)?;
    sync_folder(disk, folder)
}
