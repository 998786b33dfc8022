// Held files of a store, in pieces.
ghost use Rattle.std.specs.Prelude.{◌≡◌, ◌≢◌, ◌+◌, ◌<◌, ◌≤◌, length, take, IsTrue, IfOk, IfErr, None};
ghost use Rattle.ext_disk.specs.Since.{Rests};
ghost use Rattle.ext_host.specs.Shelf.{missing};
ghost use Rattle.ext_host.specs.declared.body.Body.TheVariants as bodies;
ghost use Rattle.ext_store_files.specs.Names.{IsFileNumber, home_path};
ghost use Rattle.ext_store_files.specs.HeldFiles.{is_served, path_told, body_told, IsNextPiece, PieceCause, KeptPieceCause};
ghost use Rattle.ext_host.specs.declared.shelf.ShelfErr.TheVariants as errors;

use crate::held_files::damaged;
use crate::paths::home_path;
use crate::reading::{read_from, read_on};
use ext_disk::Disk;
use ext_host::{Body, Held, Home, ShelfErr};
use ext_io::read_at;
use ext_tree::Stamp;
use std::alloc::Global;

/// Reads bytes of a held file, which is here or kept in the store under a number up to 262,143, from the byte `at` on, to
/// the beginning of a buffer that has room for one at least, and gives how many: at least one, and none past the listed size,
/// below which `at` is. No digest is compared.
///
/// # Errors
/// - `Fault` only where the disk counted one.
/// - `Damaged`, with nothing found, exactly where no file stands at a kept file's home or it ends at or before `at`.
/// - Out of memory.
///
/// The disk is as before.
pub fn piece<D: Disk>(
    alloc: Global,
    disk: &mut D,
    held: &Held,
    at: u64,
    buf: &mut [u8],
) -> Result<usize, ShelfErr>
    requires served { IsTrue (is_served held.now.body) }
    requires room { 0 < length buf.old }
    requires place { at < held.now.stamp.size }
    ensures within { IfOk result (λ n. (0 < n) × (n ≤ length buf.new) × (at + n ≤ held.now.stamp.size)) }
    ensures next { IfOk result (λ n. IsNextPiece (body_told (D.state disk.old) held.now.body) at (take n buf.new)) }
    ensures rests { Rests (D.state disk.old) (D.state disk.new) }
    ensures cause { IfErr result (PieceCause (D.state disk.old).faults (D.state disk.new).faults
        (body_told (D.state disk.old) held.now.body) held.now at) }
{
    let room = room_at(held.stamp(), at, buf.len());
    match held.body() {
        Body::Here(text) => Ok(read_at(text.bytes(), at, &mut buf[..room])),
        Body::Kept(home) => kept_piece(alloc, disk, home, held.stamp(), at, &mut buf[..room]),
        Body::Depot(_) => unreachable!(),
    }
}

/// Reads further bytes of a held file, of which some were read before, as `piece` reads the first. So a file stands at a kept
/// file's home, where that is told, and the disk is not asked once more what does.
///
/// # Errors
/// As for `piece`: `Damaged` exactly where the file ends at or before `at`.
///
/// The disk is as before.
pub fn next_piece<D: Disk>(
    alloc: Global,
    disk: &mut D,
    held: &Held,
    at: u64,
    buf: &mut [u8],
) -> Result<usize, ShelfErr>
    requires stands { body_told (D.state disk.old) held.now.body ≢ missing }
    requires served { IsTrue (is_served held.now.body) }
    requires room { 0 < length buf.old }
    requires place { at < held.now.stamp.size }
    ensures within { IfOk result (λ n. (0 < n) × (n ≤ length buf.new) × (at + n ≤ held.now.stamp.size)) }
    ensures next { IfOk result (λ n. IsNextPiece (body_told (D.state disk.old) held.now.body) at (take n buf.new)) }
    ensures rests { Rests (D.state disk.old) (D.state disk.new) }
    ensures cause { IfErr result (PieceCause (D.state disk.old).faults (D.state disk.new).faults
        (body_told (D.state disk.old) held.now.body) held.now at) }
{
    match held.body() {
        Body::Kept(home) => {
            let room = room_at(held.stamp(), at, buf.len());
            next_kept_piece(alloc, disk, home, held.stamp(), at, &mut buf[..room])
        }
        Body::Here(_) | Body::Depot(_) => piece(alloc, disk, held, at, buf),
    }
}

// How many bytes from the byte `at` on are asked for: no more than a buffer has room for, and none past the listed size.
fn room_at(listed: &Stamp, at: u64, most: usize) -> usize
    requires room { 0 < most }
    requires place { at < listed.now.size }
    ensures some { 0 < result }
    ensures most { result ≤ most }
    ensures listed { at + result ≤ listed.now.size }
{
    let left = listed.size - at;
    if left < most as u64 {
        left as usize
    } else {
        most
    }
}

// Bytes of a kept file, once it was looked whether it stands at its home.
fn kept_piece<D: Disk>(
    alloc: Global,
    disk: &mut D,
    home: &Home,
    listed: &Stamp,
    at: u64,
    buf: &mut [u8],
) -> Result<usize, ShelfErr>
    requires number { IsFileNumber home.now.file }
    requires room { 0 < length buf.old }
    ensures within { IfOk result (λ n. (0 < n) × (n ≤ length buf.new)) }
    ensures next { IfOk result (λ n. IsNextPiece (path_told (D.state disk.old) (home_path home.now.generation home.now.file)) at
        (take n buf.new)) }
    ensures rests { Rests (D.state disk.old) (D.state disk.new) }
    ensures cause { IfErr result (KeptPieceCause (D.state disk.old) (D.state disk.new) home.now listed.now at) }
{
    let path = home_path(alloc, home.generation, home.file)?;
    let count = read_from(disk, &path, at, buf)?;
    some_read(count, home, listed)
}

// Bytes of a kept file that stands at its home.
fn next_kept_piece<D: Disk>(
    alloc: Global,
    disk: &mut D,
    home: &Home,
    listed: &Stamp,
    at: u64,
    buf: &mut [u8],
) -> Result<usize, ShelfErr>
    requires stands { path_told (D.state disk.old) (home_path home.now.generation home.now.file) ≢ missing }
    requires number { IsFileNumber home.now.file }
    requires room { 0 < length buf.old }
    ensures within { IfOk result (λ n. (0 < n) × (n ≤ length buf.new)) }
    ensures next { IfOk result (λ n. IsNextPiece (path_told (D.state disk.old) (home_path home.now.generation home.now.file)) at
        (take n buf.new)) }
    ensures rests { Rests (D.state disk.old) (D.state disk.new) }
    ensures cause { IfErr result (KeptPieceCause (D.state disk.old) (D.state disk.new) home.now listed.now at) }
{
    let path = home_path(alloc, home.generation, home.file)?;
    let count = read_on(disk, &path, at, buf)?;
    some_read(count, home, listed)
}

// So many bytes were read of a kept file. Where none were, it ends before its listed size.
fn some_read(count: usize, home: &Home, listed: &Stamp) -> Result<usize, ShelfErr>
    ensures ok { IfOk result (λ n. (n ≡ count) × (0 < n)) }
    ensures err { IfErr result (λ e. (count ≡ 0)
        × (e ≡ errors.Damaged (record { home = home.now; listed = listed.now; found = None }))) }
{
    if count == 0 {
        Err(damaged(home, listed, None))
    } else {
        Ok(count)
    }
}
