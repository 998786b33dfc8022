// A file of the depot, copied into the store: what is appended is what is hashed.
ghost use Rattle.std.specs.Prelude.{◌≡◌, ℕ, ◌^◌, ◌+◌, ◌<◌, ◌≤◌, min, List, [], ◌++◌, length, take, true, false, ◌↔◌, ◌⊎◌, IsTrue, OnOk, IfOk, IfErr};
ghost use Rattle.ext_text.specs.Causes.{Rose};
ghost use Rattle.ext_store_files.specs.declared.errors.CopyErr.TheVariants as errors;
ghost use Rattle.sha2.specs.Hashers.{Holds256};
ghost use Rattle.ext_text.specs.Path.{is_prefix};
ghost use Rattle.ext_disk.specs.Disk.{BothTold, is_no_folder};
ghost use Rattle.ext_disk.specs.Calls.{make_file, MayCall};
ghost use Rattle.ext_depot.specs.Depot.{IsKept, DepotState};
ghost use Rattle.ext_store_files.specs.Reading.{IsFileAt};
ghost use Rattle.ext_store_files.specs.Appended.{Raises};
ghost use Rattle.ext_store_files.specs.Writing.{is_at, nowhere, Works, IsFileWith, Holds, Appends};
ghost use Rattle.ext_store_files.specs.Copying.{depot_told, IsThere, IsCopied, IsFed, IsPieceTold, CopyKeeps, CopyCause, FeedCause, ReadDepotCause};
ghost use Rattle.ext_host.specs.Held.{IsStampOf};
ghost use Rattle.ext_io.specs.Pieces.{most_of_piece};

use crate::errors::CopyErr;
use crate::writing::{append_piece, make_empty, sync_file};
use ext_depot::Depot;
use ext_disk::Disk;
use ext_io::{room_for, zeros};
use ext_text::{Digest, Path};
use ext_tree::Stamp;
use sha2::Sha256;
use std::alloc::Global;

/// Makes a file in the store, in a folder, at a path at which nothing stands, and copies to it a file of the depot, which is
/// read and appended in pieces of at most 65,536 bytes, and no further than one byte past its listed size. What is appended
/// is hashed, and synced where it has the listed stamp.
///
/// # Errors
/// - `NotInDepot` exactly where the depot has no such file.
/// - `Mismatch` exactly where what was read of it has another stamp.
/// - A fault of the disk or of the depot, only where that counted one.
/// - Out of memory.
///
/// A file is then at the path or not, and has any bytes.
pub fn copy_from_depot<D: Disk, P: Depot>(
    alloc: Global,
    disk: &mut D,
    path: &Path,
    depot: &mut P,
    from: &Path,
    listed: &Stamp,
) -> Result<(), CopyErr>
    requires free { MayCall (make_file path.now) (D.state disk.old) }
    requires size { listed.now.size < 2 ^ 63 }
    ensures keeps { CopyKeeps path.now listed.now.size (D.state disk.old) (D.state disk.new) (P.state depot.old) (P.state depot.new) }
    ensures copied { OnOk result (IsCopied (depot_told (P.state depot.old) from.now) listed.now path.now (D.state disk.old)
        (D.state disk.new)) }
    ensures cause { IfErr result (CopyCause (D.state disk.old) (D.state disk.new) (P.state depot.old) (P.state depot.new)
        (depot_told (P.state depot.old) from.now) listed.now) }
{
    match depot.size(from) {
        Err(_) => Err(CopyErr::DepotFault),
        Ok(None) => Err(CopyErr::NotInDepot),
        Ok(Some(_)) => copy_there(alloc, disk, path, depot, from, listed),
    }
}

// Copies a file that the depot has.
fn copy_there<D: Disk, P: Depot>(
    alloc: Global,
    disk: &mut D,
    path: &Path,
    depot: &mut P,
    from: &Path,
    listed: &Stamp,
) -> Result<(), CopyErr>
    requires there { IsThere (P.state depot.old) from.now }
    requires free { MayCall (make_file path.now) (D.state disk.old) }
    requires size { listed.now.size < 2 ^ 63 }
    ensures keeps { CopyKeeps path.now listed.now.size (D.state disk.old) (D.state disk.new) (P.state depot.old) (P.state depot.new) }
    ensures copied { OnOk result (IsCopied (depot_told (P.state depot.old) from.now) listed.now path.now (D.state disk.old)
        (D.state disk.new)) }
    ensures cause { IfErr result (CopyCause (D.state disk.old) (D.state disk.new) (P.state depot.old) (P.state depot.new)
        (depot_told (P.state depot.old) from.now) listed.now) }
{
    let mut buffer = zeros(alloc, room_for(listed.size as usize))?;
    match make_empty(disk, path) {
        Ok(()) => fill(disk, path, depot, from, listed, &mut buffer),
        Err(_) => Err(CopyErr::DiskFault),
    }
}

// Copies to an empty file, and syncs it where the bytes are those that are listed.
fn fill<D: Disk, P: Depot>(
    disk: &mut D,
    path: &Path,
    depot: &mut P,
    from: &Path,
    listed: &Stamp,
    buffer: &mut [u8],
) -> Result<(), CopyErr>
    requires empty { Holds (IsFileWith path.now []) (D.state disk.old) }
    requires size { listed.now.size < 2 ^ 63 }
    requires there { IsThere (P.state depot.old) from.now }
    requires room { length buffer.old ≡ min most_of_piece (listed.now.size + 1) }
    ensures keeps { CopyKeeps path.now listed.now.size (D.state disk.old) (D.state disk.new) (P.state depot.old) (P.state depot.new) }
    ensures copied { OnOk result (IsCopied (depot_told (P.state depot.old) from.now) listed.now path.now (D.state disk.old)
        (D.state disk.new)) }
    ensures cause { IfErr result (CopyCause (D.state disk.old) (D.state disk.new) (P.state depot.old) (P.state depot.new)
        (depot_told (P.state depot.old) from.now) listed.now) }
{
    let found = feed(disk, path, depot, from, listed.size, buffer)?;
    if found == *listed {
        sync(disk, path)
    } else {
        let listed = *listed;
        Err(CopyErr::Mismatch { listed, found })
    }
}

// Syncs the bytes of the copy.
fn sync<D: Disk>(disk: &mut D, path: &Path) -> Result<(), CopyErr>
    requires { IsFileAt (D.state disk.old) path.now }
    ensures works { Works nowhere nowhere 0 (D.state disk.old) (D.state disk.new) }
    ensures synced { OnOk result (Holds (λ e. (e path.now).unsynced_bytes ≡ false) (D.state disk.new)) }
    ensures cause { IfErr result (λ e. (e ≡ errors.DiskFault) × Rose (D.state disk.old).faults (D.state disk.new).faults) }
{
    match sync_file(disk, path) {
        Ok(()) => Ok(()),
        Err(_) => Err(CopyErr::DiskFault),
    }
}

// Appends to an empty file what a file of the depot has, at most so many bytes, and reads one more at most. Gives the stamp of
// what was read.
fn feed<D: Disk, P: Depot>(
    disk: &mut D,
    path: &Path,
    depot: &mut P,
    from: &Path,
    size: u64,
    buffer: &mut [u8],
) -> Result<Stamp, CopyErr>
    requires empty { Holds (IsFileWith path.now []) (D.state disk.old) }
    requires there { IsThere (P.state depot.old) from.now }
    requires size { size < 2 ^ 63 }
    requires room { length buffer.old ≡ min most_of_piece (size + 1) }
    ensures keeps { CopyKeeps path.now size (D.state disk.old) (D.state disk.new) (P.state depot.old) (P.state depot.new) }
    ensures fed { IfOk result (IsFed (depot_told (P.state depot.old) from.now) size path.now (D.state disk.old) (D.state disk.new)) }
    ensures cause { IfErr result (FeedCause (D.state disk.old) (D.state disk.new) (P.state depot.old) (P.state depot.new)) }
{
    let mut hasher = <Sha256 as sha2::Digest>::new();
    let mut at = 0;
    'pieces: loop {
        let left = size - at;
        let room = room_for(left as usize);
        let part = &mut buffer[..room];
        let count = hash_piece(depot, from, at, part, &mut hasher)?;
        if is_last(count, left) {
            return Ok(stamp(at + count as u64, hasher));
        }
        append_copied(disk, path, &part[..count])?;
        at += count as u64;
    }
}

/// Whether nothing more is to be read after so many bytes, where so many were left of the listed size.
pub(crate) fn is_last(count: usize, left: u64) -> bool
    ensures { IsTrue result ↔ ((count ≡ 0) ⊎ (left < count)) }
{
    count == 0 || left < count as u64
}

// Appends a piece of the copy.
fn append_copied<D: Disk>(disk: &mut D, path: &Path, piece: &[u8]) -> Result<(), CopyErr>
    requires some { 0 < length piece.now }
    requires file { IsFileAt (D.state disk.old) path.now }
    ensures works { Works (is_prefix path.now) (is_at path.now) (length piece.now) (D.state disk.old) (D.state disk.new) }
    ensures file { Holds (λ e. is_no_folder (e path.now).node ≡ true) (D.state disk.new) }
    ensures more { OnOk result (BothTold (Appends path.now piece.now) (D.state disk.old).told (D.state disk.new).told) }
    ensures raises { OnOk result (Raises (length piece.now) (D.state disk.old) (D.state disk.new)) }
    ensures cause { IfErr result (λ e. (e ≡ errors.DiskFault) × Rose (D.state disk.old).faults (D.state disk.new).faults) }
{
    match append_piece(disk, path, piece) {
        Ok(()) => Ok(()),
        Err(_) => Err(CopyErr::DiskFault),
    }
}

/// The stamp of so many bytes that a hasher holds.
pub(crate) fn stamp(size: u64, hasher: Sha256) -> Stamp
    ensures { (m : List ℕ) → Holds256 hasher m → length m ≡ size → IsStampOf m result }
{
    Stamp {
        size,
        digest: Digest(<Sha256 as sha2::Digest>::finalize(hasher)),
    }
}

/// Reads once from the byte `at` on, hashes what was read, and gives how much that was.
///
/// # Errors
/// The depot had a fault.
pub(crate) fn hash_piece<P: Depot>(
    depot: &mut P,
    from: &Path,
    at: u64,
    buffer: &mut [u8],
    hasher: &mut Sha256,
) -> Result<usize, CopyErr>
    requires room { 0 < length buffer.old }
    requires there { IsThere (P.state depot.old) from.now }
    ensures ok { IfOk result (λ n. (n ≤ length buffer.old) × (length (take n buffer.new) ≡ n)
        × ((m : List ℕ) → Holds256 hasher.old m → Holds256 hasher.new (m ++ take n buffer.new))
        × IsPieceTold (depot_told (P.state depot.old) from.now) at (take n buffer.new)) }
    ensures kept { IsKept (P.state depot.old) (P.state depot.new) }
    ensures cause { IfErr result (ReadDepotCause (P.state depot.old) (P.state depot.new)) }
{
    match depot.read(from, at, buffer) {
        Ok(count) => {
            sha2::Digest::update(hasher, &buffer[..count]);
            Ok(count)
        }
        Err(_) => Err(CopyErr::DepotFault),
    }
}
