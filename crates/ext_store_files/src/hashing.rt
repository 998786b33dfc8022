// The digest of a file of the store, read in pieces.
ghost use Rattle.std.specs.Prelude.{◌≡◌, ℕ, ◌<◌, ◌≤◌, true, List, ◌++◌, length, take, IfOk, IfErr};
ghost use Rattle.sha2.specs.Hashers.{Holds256};
ghost use Rattle.ext_text.specs.Causes.{HasCause};
ghost use Rattle.ext_disk.specs.Since.{Rests};
ghost use Rattle.ext_store_files.specs.Reading.{ReadCause, IsFileAt, HasSize, IsPieceOf};
ghost use Rattle.ext_store_files.specs.HeldFiles.{path_told, IsDigestAt};

use crate::errors::ReadErr;
use ext_disk::{Disk, Kind};
use ext_io::{Failed, PIECE, zeros};
use ext_text::{Digest, Path};
use sha2::Sha256;
use std::alloc::Global;

/// The digest of the file at a path, read in pieces of at most 65,536 bytes; `None` exactly where no file of this size stands
/// there.
///
/// # Errors
/// A fault of the disk, only where it counted one, and out of memory. The disk is as before.
pub(crate) fn digest_at<D: Disk>(
    alloc: Global,
    disk: &mut D,
    path: &Path,
    size: u64,
) -> Result<Option<Digest>, ReadErr>
    ensures digest { IfOk result (IsDigestAt (path_told (D.state disk.old) path.now) size) }
    ensures rests { Rests (D.state disk.old) (D.state disk.new) }
    ensures cause { IfErr result (ReadCause (D.state disk.old).faults (D.state disk.new).faults) }
{
    match disk.kind(path)? {
        Some(Kind::File(found)) if found == size => hash_whole(alloc, disk, path, size),
        _ => Ok(None),
    }
}

// The digest of the file at a path; `None` where it ends before this size, as no file does that has it.
fn hash_whole<D: Disk>(
    alloc: Global,
    disk: &mut D,
    path: &Path,
    size: u64,
) -> Result<Option<Digest>, ReadErr>
    requires { HasSize (D.state disk.old) path.now size }
    ensures digest { IfOk result (IsDigestAt (path_told (D.state disk.old) path.now) size) }
    ensures rests { Rests (D.state disk.old) (D.state disk.new) }
    ensures cause { IfErr result (ReadCause (D.state disk.old).faults (D.state disk.new).faults) }
{
    let mut buffer = zeros(alloc, PIECE.min(size as usize))?;
    let mut hasher = <Sha256 as sha2::Digest>::new();
    let mut at = 0;
    'pieces: while at < size {
        let room = PIECE.min((size - at) as usize);
        let count = hash_piece(disk, path, at, &mut buffer[..room], &mut hasher)?;
        if count == 0 {
            return Ok(None);
        }
        at += count as u64;
    }
    Ok(Some(Digest(<Sha256 as sha2::Digest>::finalize(hasher))))
}

/// Reads once from the byte `at` on, hashes what was read, and gives how much that was.
///
/// # Errors
/// The disk had a fault.
pub(crate) fn hash_piece<D: Disk>(
    disk: &mut D,
    path: &Path,
    at: u64,
    buffer: &mut [u8],
    hasher: &mut Sha256,
) -> Result<usize, Failed>
    requires room { 0 < length buffer.old }
    requires file { IsFileAt (D.state disk.old) path.now }
    ensures ok { IfOk result (λ n. (n ≤ length buffer.old) × (length (take n buffer.new) ≡ n)
        × ((m : List ℕ) → Holds256 hasher.old m → Holds256 hasher.new (m ++ take n buffer.new))
        × IsPieceOf (D.state disk.old) path.now at (take n buffer.new)) }
    ensures rests { Rests (D.state disk.old) (D.state disk.new) }
    ensures cause { HasCause result (D.state disk.old).faults (D.state disk.new).faults }
{
    let count = disk.read(path, at, buffer)?;
    sha2::Digest::update(hasher, &buffer[..count]);
    Ok(count)
}
