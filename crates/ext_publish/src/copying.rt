// A file of the store is copied into the depot: what is appended is what is hashed.
ghost use Rattle.std.specs.Prelude.{◌≡◌, ◌≢◌, ℕ, ◌++◌, ◌+◌, ◌<◌, ◌≤◌, min, true, [], List, IfErr, IfOk, OnOk, length, take};
ghost use Rattle.std.specs.Result.{is_ok};
ghost use Rattle.sha2.specs.Hashers.{Holds256};
ghost use Rattle.ext_text.specs.Causes.{Rose};
ghost use Rattle.ext_text.specs.Path.{is_prefix};
ghost use Rattle.ext_io.specs.Pieces.{most_of_piece};
ghost use Rattle.ext_disk.specs.Calls.{Does, MayCall, append, make_file, sync_file};
ghost use Rattle.ext_disk.specs.Lookups.{IsKindAt};
ghost use Rattle.ext_disk.specs.Since.{Rests};
ghost use Rattle.ext_host.specs.Shelf.{missing};
ghost use Rattle.ext_host.specs.declared.body.Body.TheVariants as bodies;
ghost use Rattle.ext_store_files.specs.HeldFiles.{IsNextPiece, body_told, is_served};
ghost use Rattle.ext_store_files.specs.Reading.{IsFileAt};
ghost use Rattle.ext_store_files.specs.Writing.{Holds, IsFileWith, IsWritten, is_at};
ghost use Rattle.ext_gen.specs.declared.bad_store.BadStore.TheVariants as bad_stores;
ghost use Rattle.ext_publish.specs.Copying.{HeldCause, HasListedSize, ReadHomeCause, IsCopyOf, IsHashed, KeptDiffers, WorksAt};
ghost use Rattle.ext_publish.specs.declared.stop.Stop.TheVariants as stops;

use crate::stop::Stop;
use ext_disk::{Disk, Kind};
use ext_gen::BadStore;
use ext_host::{Body, Damage, Held, Home};
use ext_io::{PIECE, zeros};
use ext_store_files::{home_path, next_piece, write_file};
use ext_text::{Digest, Path};
use ext_tree::Stamp;
use sha2::Sha256;
use std::alloc::Global;

/// MakesFolder a file in the depot, at a path at which nothing stands, of the bytes of a held file of the store, and syncs it. They
/// are read and appended in pieces of at most 65,536 bytes. What is appended is hashed, and synced where it has the listed
/// stamp.
pub(crate) fn copy_held<D: Disk, O: Disk>(
    alloc: Global,
    held: &Held,
    store: &mut D,
    path: &Path,
    out: &mut O,
) -> Result<(), Stop>
    requires free { MayCall (make_file path.now) (O.state out.old) }
    requires served { is_served held.now.body ≡ true }
    ensures works { WorksAt path.now (O.state out.old) (O.state out.new) }
    ensures rests { Rests (D.state store.old) (D.state store.new) }
    ensures copied { OnOk result (IsCopyOf (body_told (D.state store.old) held.now.body) held.now.stamp path.now (O.state out.new)) }
    ensures cause { IfErr result (HeldCause held.now (D.state store.old) (D.state store.new) (O.state out.old) (O.state out.new)) }
{
    match held.body() {
        Body::Here(text) => write_at(out, path, text.bytes()),
        Body::Kept(home) => copy_kept(alloc, held, home, store, path, out),
        Body::Depot(_) => unreachable!(),
    }
}

// Copies a file that is kept at a home.
fn copy_kept<D: Disk, O: Disk>(
    alloc: Global,
    held: &Held,
    home: &Home,
    store: &mut D,
    path: &Path,
    out: &mut O,
) -> Result<(), Stop>
    requires free { MayCall (make_file path.now) (O.state out.old) }
    requires served { is_served held.now.body ≡ true }
    requires kept { held.now.body ≡ bodies.Kept home.now }
    ensures works { WorksAt path.now (O.state out.old) (O.state out.new) }
    ensures rests { Rests (D.state store.old) (D.state store.new) }
    ensures copied { OnOk result (IsCopyOf (body_told (D.state store.old) held.now.body) held.now.stamp path.now (O.state out.new)) }
    ensures cause { IfErr result (HeldCause held.now (D.state store.old) (D.state store.new) (O.state out.old) (O.state out.new)) }
{
    look_at_home(alloc, held, home, store)?;
    let size = held.stamp().size;
    let mut buffer = zeros(alloc, PIECE.min(size as usize))?;
    make_file_at(out, path)?;
    let digest = copy_pieces(alloc, held, store, path, out, &mut buffer)?;
    compare(held, home, digest)?;
    sync_bytes(out, path)
}

// Looks whether a file of the listed size stands at the home.
fn look_at_home<D: Disk>(alloc: Global, held: &Held, home: &Home, store: &mut D) -> Result<(), Stop>
    requires served { is_served held.now.body ≡ true }
    requires kept { held.now.body ≡ bodies.Kept home.now }
    ensures sized { OnOk result (HasListedSize (body_told (D.state store.old) held.now.body) held.now.stamp) }
    ensures rests { Rests (D.state store.old) (D.state store.new) }
    ensures cause { IfErr result (ReadHomeCause held.now (D.state store.old) (D.state store.new)) }
{
    let path = home_path(alloc, home.generation, home.file)?;
    let listed = held.stamp().size;
    match kind_in(store, &path)? {
        Some(Kind::File(size)) if size == listed => Ok(()),
        _ => Err(damaged(held, home, None)),
    }
}

// What stands at a path of the store's disk.
fn kind_in<D: Disk>(store: &mut D, path: &Path) -> Result<Option<Kind>, Stop>
    ensures kind { IfOk result (IsKindAt (D.state store.old) path.now) }
    ensures rests { Rests (D.state store.old) (D.state store.new) }
    ensures cause { IfErr result (λ e. (e ≡ stops.DiskFault) × Rose (D.state store.old).faults (D.state store.new).faults) }
{
    match store.kind(path) {
        Ok(kind) => Ok(kind),
        Err(_) => Err(Stop::DiskFault),
    }
}

// A kept file is not what it is listed as.
fn damaged(held: &Held, home: &Home, found: Option<Stamp>) -> Stop
    ensures { result ≡ stops.BadStore (bad_stores.Damaged (record { home = home.now; listed = held.now.stamp; found = found })) }
{
    Stop::BadStore(BadStore::Damaged(Damage {
        home: *home,
        listed: *held.stamp(),
        found,
    }))
}

// Appends to an empty file so many bytes of a held file as are listed, of which so many stand there, where that is told. Gives the
// digest of what was appended.
fn copy_pieces<D: Disk, O: Disk>(
    alloc: Global,
    held: &Held,
    store: &mut D,
    path: &Path,
    out: &mut O,
    buffer: &mut [u8],
) -> Result<Digest, Stop>
    requires empty { Holds (IsFileWith path.now []) (O.state out.old) }
    requires served { is_served held.now.body ≡ true }
    requires sized { HasListedSize (body_told (D.state store.old) held.now.body) held.now.stamp }
    requires room { length buffer.old ≡ min most_of_piece held.now.stamp.size }
    ensures works { WorksAt path.now (O.state out.old) (O.state out.new) }
    ensures rests { Rests (D.state store.old) (D.state store.new) }
    ensures hashed { IfOk result (IsHashed (body_told (D.state store.old) held.now.body) held.now.stamp.size path.now (O.state out.new)) }
    ensures cause { IfErr result (HeldCause held.now (D.state store.old) (D.state store.new) (O.state out.old) (O.state out.new)) }
{
    let size = held.stamp().size;
    let mut hasher = <Sha256 as sha2::Digest>::new();
    let mut at = 0;
    'pieces: while at < size {
        let count = hash_next(alloc, held, store, at, buffer, &mut hasher)?;
        append_at(out, path, &buffer[..count])?;
        at += count as u64;
    }
    Ok(Digest(<Sha256 as sha2::Digest>::finalize(hasher)))
}

// Reads bytes of a held file from the byte `at` on, hashes them, and gives how many they are: at least one, and none past the listed
// size.
fn hash_next<D: Disk>(
    alloc: Global,
    held: &Held,
    store: &mut D,
    at: u64,
    buffer: &mut [u8],
    hasher: &mut Sha256,
) -> Result<usize, Stop>
    requires served { is_served held.now.body ≡ true }
    requires stands { body_told (D.state store.old) held.now.body ≢ missing }
    requires room { 0 < length buffer.old }
    requires place { at < held.now.stamp.size }
    ensures within { IfOk result (λ n. (0 < n) × (length (take n buffer.new) ≡ n) × (at + n ≤ held.now.stamp.size)) }
    ensures fed { IfOk result (λ n. (m : List ℕ) → Holds256 hasher.old m → Holds256 hasher.new (m ++ take n buffer.new)) }
    ensures next { IfOk result (λ n. IsNextPiece (body_told (D.state store.old) held.now.body) at (take n buffer.new)) }
    ensures rests { Rests (D.state store.old) (D.state store.new) }
    ensures cause { IfErr result (ReadHomeCause held.now (D.state store.old) (D.state store.new)) }
{
    let count = next_piece(alloc, store, held, at, buffer)?;
    sha2::Digest::update(hasher, &buffer[..count]);
    Ok(count)
}

// Compares the digest of what was copied with the listed one.
fn compare(held: &Held, home: &Home, digest: Digest) -> Result<(), Stop>
    ensures same { OnOk result (digest ≡ held.now.stamp.digest) }
    ensures differs { IfErr result (KeptDiffers held.now home.now digest) }
{
    let listed = held.stamp();
    if digest == listed.digest {
        Ok(())
    } else {
        let size = listed.size;
        Err(damaged(held, home, Some(Stamp { size, digest })))
    }
}

/// MakesFolder a file of these bytes in the depot, at a path at which nothing stands, and syncs it.
pub(crate) fn write_at<O: Disk>(out: &mut O, path: &Path, bytes: &[u8]) -> Result<(), Stop>
    requires { MayCall (make_file path.now) (O.state out.old) }
    ensures works { WorksAt path.now (O.state out.old) (O.state out.new) }
    ensures written { OnOk result (Holds (IsWritten path.now bytes.now) (O.state out.new)) }
    ensures cause { IfErr result (λ e. (e ≡ stops.OutFault) × Rose (O.state out.old).faults (O.state out.new).faults) }
{
    match write_file(out, path, bytes) {
        Ok(()) => Ok(()),
        Err(_) => Err(Stop::OutFault),
    }
}

// MakesFolder an empty file in the depot.
fn make_file_at<O: Disk>(out: &mut O, path: &Path) -> Result<(), Stop>
    requires { MayCall (make_file path.now) (O.state out.old) }
    ensures does { Does (make_file path.now) (O.state out.old) (O.state out.new) (is_ok result) }
    ensures cause { IfErr result (λ e. (e ≡ stops.OutFault) × Rose (O.state out.old).faults (O.state out.new).faults) }
{
    match out.make_file(path) {
        Ok(()) => Ok(()),
        Err(_) => Err(Stop::OutFault),
    }
}

// Appends bytes to a file of the depot.
fn append_at<O: Disk>(out: &mut O, path: &Path, bytes: &[u8]) -> Result<(), Stop>
    requires { MayCall (append path.now bytes.now) (O.state out.old) }
    ensures does { Does (append path.now bytes.now) (O.state out.old) (O.state out.new) (is_ok result) }
    ensures cause { IfErr result (λ e. (e ≡ stops.OutFault) × Rose (O.state out.old).faults (O.state out.new).faults) }
{
    match out.append(path, bytes) {
        Ok(()) => Ok(()),
        Err(_) => Err(Stop::OutFault),
    }
}

// Syncs the bytes of a file of the depot.
fn sync_bytes<O: Disk>(out: &mut O, path: &Path) -> Result<(), Stop>
    requires { IsFileAt (O.state out.old) path.now }
    ensures does { Does (sync_file path.now) (O.state out.old) (O.state out.new) (is_ok result) }
    ensures cause { IfErr result (λ e. (e ≡ stops.OutFault) × Rose (O.state out.old).faults (O.state out.new).faults) }
{
    match out.sync_file(path) {
        Ok(()) => Ok(()),
        Err(_) => Err(Stop::OutFault),
    }
}
