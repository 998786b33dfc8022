// A file of the store, read whole.
ghost use Rattle.std.specs.Prelude.{◌≡◌, ◌≢◌, ℕ, ◌<◌, ◌≤◌, List, [], ◌++◌, length, IfOk, IfErr};
ghost use Rattle.ext_disk.specs.Since.{Rests};
ghost use Rattle.ext_host.specs.Shelf.{missing};
ghost use Rattle.ext_store_files.specs.Reading.{IsFoundAt, ReadCause, IsFileAt, IsPieceOf};
ghost use Rattle.ext_store_files.specs.HeldFiles.{path_told, IsReadFrom};

use crate::errors::ReadErr;
use ext_disk::{Disk, Kind};
use ext_io::{append, room_for, zeros};
use ext_text::{OutOfMemory, Path, Text};
use std::alloc::Global;

/// What was found at a path where a file was looked for.
#[derive(Drop)]
pub enum Found {
    /// Nothing stands there.
    Absent,
    /// A folder stands there.
    Folder,
    /// A file stands there that has more bytes than the limit.
    TooLong,
    /// A file stands there, and has these bytes.
    File(Text),
}

/// The file at a path, of at most so many bytes, read in pieces of at most 65,536 bytes, and no further than one byte past
/// the limit.
///
/// # Errors
/// A fault of the disk, only where it counted one, and out of memory. The disk is as before.
pub fn read_file<D: Disk>(
    alloc: Global,
    disk: &mut D,
    path: &Path,
    most: usize,
) -> Result<Found, ReadErr>
    ensures found { IfOk result (IsFoundAt (D.state disk.old) path.now most) }
    ensures rests { Rests (D.state disk.old) (D.state disk.new) }
    ensures cause { IfErr result (ReadCause (D.state disk.old).faults (D.state disk.new).faults) }
{
    match disk.kind(path)? {
        None => Ok(Found::Absent),
        Some(Kind::Dir) => Ok(Found::Folder),
        Some(Kind::File(size)) if size > most as u64 => Ok(Found::TooLong),
        Some(Kind::File(size)) => read_whole(alloc, disk, path, size as usize, most),
    }
}

// The file at a path, read into room of the size that the disk told, which may be another than it has.
fn read_whole<D: Disk>(
    alloc: Global,
    disk: &mut D,
    path: &Path,
    size: usize,
    most: usize,
) -> Result<Found, ReadErr>
    requires { IsFileAt (D.state disk.old) path.now }
    ensures found { IfOk result (IsFoundAt (D.state disk.old) path.now most) }
    ensures rests { Rests (D.state disk.old) (D.state disk.new) }
    ensures cause { IfErr result (ReadCause (D.state disk.old).faults (D.state disk.new).faults) }
{
    let mut buffer = zeros(alloc, room_for(most))?;
    let mut bytes = room_of(alloc, size)?;
    'pieces: while bytes.len() <= most {
        let room = room_for(most - bytes.len());
        let count = read_piece(disk, path, &mut buffer[..room], &mut bytes)?;
        if count == 0 {
            return Ok(Found::File(Text::from_vec(bytes)));
        }
    }
    Ok(Found::TooLong)
}

// Room for so many bytes.
fn room_of(alloc: Global, count: usize) -> Result<Vec<u8>, OutOfMemory>
    ensures { IfOk result (λ bytes. bytes.items ≡ []) }
{
    Ok(Vec::with_capacity(alloc, count)?)
}

// Reads once from where the bytes end, adds what was read to them, and gives how much that was.
fn read_piece<D: Disk>(
    disk: &mut D,
    path: &Path,
    buffer: &mut [u8],
    bytes: &mut Vec<u8>,
) -> Result<usize, ReadErr>
    requires room { 0 < length buffer.old }
    requires file { IsFileAt (D.state disk.old) path.now }
    ensures ok { IfOk result (λ n. (piece : List ℕ) × (bytes.new.items ≡ bytes.old.items ++ piece)
        × (length piece ≡ n) × (n ≤ length buffer.old)
        × IsPieceOf (D.state disk.old) path.now (length bytes.old.items) piece) }
    ensures rests { Rests (D.state disk.old) (D.state disk.new) }
    ensures cause { IfErr result (ReadCause (D.state disk.old).faults (D.state disk.new).faults) }
{
    let count = disk.read(path, bytes.len() as u64, buffer)?;
    append(bytes, &buffer[..count])?;
    Ok(count)
}

/// Reads bytes of the file at a path, from the byte `at` on, to the beginning of a buffer that has room for one at least, and
/// gives how many: 0 exactly where no file stands there or it ends at or before `at`.
///
/// # Errors
/// A fault of the disk, only where it counted one. The disk is as before.
pub(crate) fn read_from<D: Disk>(
    disk: &mut D,
    path: &Path,
    at: u64,
    buf: &mut [u8],
) -> Result<usize, ReadErr>
    requires { 0 < length buf.old }
    ensures within { IfOk result (λ n. n ≤ length buf.new) }
    ensures read { IfOk result (IsReadFrom (path_told (D.state disk.old) path.now) at buf.new) }
    ensures rests { Rests (D.state disk.old) (D.state disk.new) }
    ensures cause { IfErr result (ReadCause (D.state disk.old).faults (D.state disk.new).faults) }
{
    match disk.kind(path)? {
        Some(Kind::File(_)) => read_on(disk, path, at, buf),
        _ => Ok(0),
    }
}

/// Reads bytes of the file at a path, from the byte `at` on, to the beginning of a buffer that has room for one at least, and
/// gives how many: 0 exactly where it ends at or before `at`. A file must stand there, where that is told: nothing looks for it.
///
/// # Errors
/// A fault of the disk, only where it counted one. The disk is as before.
pub(crate) fn read_on<D: Disk>(
    disk: &mut D,
    path: &Path,
    at: u64,
    buf: &mut [u8],
) -> Result<usize, ReadErr>
    requires room { 0 < length buf.old }
    requires stands { path_told (D.state disk.old) path.now ≢ missing }
    ensures within { IfOk result (λ n. n ≤ length buf.new) }
    ensures read { IfOk result (IsReadFrom (path_told (D.state disk.old) path.now) at buf.new) }
    ensures rests { Rests (D.state disk.old) (D.state disk.new) }
    ensures cause { IfErr result (ReadCause (D.state disk.old).faults (D.state disk.new).faults) }
{
    Ok(disk.read(path, at, buf)?)
}
