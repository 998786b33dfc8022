// Folders and files are made in the store, and synced.
ghost use Rattle.std.specs.Prelude.{◌≡◌, ◌<◌, true, false, [], length, OnOk, OnErr};
ghost use Rattle.ext_text.specs.Causes.{HasCause};
ghost use Rattle.ext_text.specs.Path.{is_prefix};
ghost use Rattle.ext_disk.specs.Disk.{BothTold, is_no_folder};
ghost use Rattle.ext_disk.specs.Lookups.{MayList};
ghost use Rattle.ext_disk.specs.Calls.{make_dir, make_file, MayCall};
ghost use Rattle.ext_store_files.specs.Appended.{Raises};
ghost use Rattle.ext_store_files.specs.Writing.{is_at, nowhere, Works, IsMade, IsWritten, IsFileWith, Holds, SyncsIn, Appends};
ghost use Rattle.ext_store_files.specs.Reading.{IsFileAt};
ghost use Rattle.ext_disk.specs.Since.{Rests};

use ext_disk::Disk;
use ext_io::{Failed, PIECE};
use ext_text::Path;

/// Makes an empty folder in a folder, at a path at which nothing stands.
///
/// # Errors
/// The disk had a fault: the folder is there or not.
pub fn make_folder<D: Disk>(disk: &mut D, path: &Path) -> Result<(), Failed>
    requires { MayCall (make_dir path.now) (D.state disk.old) }
    ensures works { Works (is_prefix path.now) (is_at path.now) 0 (D.state disk.old) (D.state disk.new) }
    ensures made { OnOk result (Holds (IsMade path.now) (D.state disk.new)) }
    ensures cause { HasCause result (D.state disk.old).faults (D.state disk.new).faults }
{
    disk.make_dir(path)
}

/// Makes a file of these bytes in a folder, at a path at which nothing stands, appends them in pieces of at most 65,536, and
/// syncs them.
///
/// # Errors
/// The disk had a fault: a file is there or not, and has any bytes.
pub fn write_file<D: Disk>(disk: &mut D, path: &Path, bytes: &[u8]) -> Result<(), Failed>
    requires { MayCall (make_file path.now) (D.state disk.old) }
    ensures works { Works (is_prefix path.now) (is_at path.now) (length bytes.now) (D.state disk.old) (D.state disk.new) }
    ensures file { Holds (λ e. is_no_folder (e path.now).node ≡ true) (D.state disk.new) }
    ensures written { OnOk result (Holds (IsWritten path.now bytes.now) (D.state disk.new)) }
    ensures raises { OnOk result (Raises (length bytes.now) (D.state disk.old) (D.state disk.new)) }
    ensures cause { HasCause result (D.state disk.old).faults (D.state disk.new).faults }
{
    make_empty(disk, path)?;
    append_all(disk, path, bytes)?;
    sync_file(disk, path)
}

/// Makes an empty file in a folder, at a path at which nothing stands.
///
/// # Errors
/// The disk had a fault: the file is there or not.
pub(crate) fn make_empty<D: Disk>(disk: &mut D, path: &Path) -> Result<(), Failed>
    requires { MayCall (make_file path.now) (D.state disk.old) }
    ensures works { Works (is_prefix path.now) (is_at path.now) 0 (D.state disk.old) (D.state disk.new) }
    ensures file { Holds (λ e. is_no_folder (e path.now).node ≡ true) (D.state disk.new) }
    ensures made { OnOk result (Holds (IsFileWith path.now []) (D.state disk.new)) }
    ensures cause { HasCause result (D.state disk.old).faults (D.state disk.new).faults }
{
    disk.make_file(path)
}

/// Syncs the names in a folder.
///
/// # Errors
/// The disk had a fault, and is as before.
pub fn sync_folder<D: Disk>(disk: &mut D, dir: &Path) -> Result<(), Failed>
    requires { MayList (D.state disk.old) dir.now }
    ensures works { Works nowhere nowhere 0 (D.state disk.old) (D.state disk.new) }
    ensures rests { OnErr result (Rests (D.state disk.old) (D.state disk.new)) }
    ensures syncs { OnOk result (BothTold (SyncsIn dir.now) (D.state disk.old).told (D.state disk.new).told) }
    ensures cause { HasCause result (D.state disk.old).faults (D.state disk.new).faults }
{
    disk.sync_dir(dir)
}

// Appends bytes to an empty file, in pieces.
fn append_all<D: Disk>(disk: &mut D, path: &Path, bytes: &[u8]) -> Result<(), Failed>
    requires { Holds (IsFileWith path.now []) (D.state disk.old) }
    ensures works { Works (is_prefix path.now) (is_at path.now) (length bytes.now) (D.state disk.old) (D.state disk.new) }
    ensures file { Holds (λ e. is_no_folder (e path.now).node ≡ true) (D.state disk.new) }
    ensures all { OnOk result (Holds (IsFileWith path.now bytes.now) (D.state disk.new)) }
    ensures raises { OnOk result (Raises (length bytes.now) (D.state disk.old) (D.state disk.new)) }
    ensures cause { HasCause result (D.state disk.old).faults (D.state disk.new).faults }
{
    let mut at = 0;
    'pieces: while at < bytes.len() {
        let count = PIECE.min(bytes.len() - at);
        append_piece(disk, path, &bytes[at..at + count])?;
        at += count;
    }
    Ok(())
}

/// Appends a piece, which is not empty, to a file.
///
/// # Errors
/// The disk had a fault: the file has any bytes.
pub(crate) fn append_piece<D: Disk>(disk: &mut D, path: &Path, piece: &[u8]) -> Result<(), Failed>
    requires some { 0 < length piece.now }
    requires file { IsFileAt (D.state disk.old) path.now }
    ensures works { Works (is_prefix path.now) (is_at path.now) (length piece.now) (D.state disk.old) (D.state disk.new) }
    ensures file { Holds (λ e. is_no_folder (e path.now).node ≡ true) (D.state disk.new) }
    ensures more { OnOk result (BothTold (Appends path.now piece.now) (D.state disk.old).told (D.state disk.new).told) }
    ensures raises { OnOk result (Raises (length piece.now) (D.state disk.old) (D.state disk.new)) }
    ensures cause { HasCause result (D.state disk.old).faults (D.state disk.new).faults }
{
    disk.append(path, piece)
}

/// Syncs the bytes of a file.
///
/// # Errors
/// The disk had a fault, and is as before.
pub(crate) fn sync_file<D: Disk>(disk: &mut D, path: &Path) -> Result<(), Failed>
    requires { IsFileAt (D.state disk.old) path.now }
    ensures works { Works nowhere nowhere 0 (D.state disk.old) (D.state disk.new) }
    ensures synced { OnOk result (Holds (λ e. (e path.now).unsynced_bytes ≡ false) (D.state disk.new)) }
    ensures cause { HasCause result (D.state disk.old).faults (D.state disk.new).faults }
{
    disk.sync_file(path)
}
