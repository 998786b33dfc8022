// Held files of a store: whole, and compared with their stamps.
ghost use Rattle.std.specs.Prelude.{◌≡◌, IsTrue, IfOk, IfErr, OnOk, None, Some};
ghost use Rattle.ext_text.specs.Causes.{HasCause};
ghost use Rattle.ext_disk.specs.Since.{Rests};
ghost use Rattle.ext_host.specs.Held.{IsStampOf};
ghost use Rattle.ext_host.specs.Shelf.{IsTold, ShelfCause};
ghost use Rattle.ext_host.specs.declared.body.Body.TheVariants as bodies;
ghost use Rattle.ext_store_files.specs.Names.{IsFileNumber, home_path};
ghost use Rattle.ext_store_files.specs.HeldFiles.{is_served, path_told, body_told, IsListed, KeptCause, DiffersSo, DigestDiffersSo};
ghost use Rattle.ext_host.specs.declared.shelf.ShelfErr.TheVariants as errors;

use crate::hashing::digest_at;
use crate::paths::home_path;
use crate::reading::{Found, read_file};
use ext_disk::Disk;
use ext_host::{Body, Damage, Held, Home, ShelfErr, stamp_of};
use ext_text::{Digest, Text};
use ext_tree::Stamp;
use std::alloc::Global;

/// All bytes of a held file, which is here or kept in the store, under a number up to 262,143.
///
/// # Errors
/// - `Fault` only where the disk counted one.
/// - `Damaged` exactly where what stands at a kept file's home has another stamp than listed.
/// - Out of memory.
///
/// The disk is as before.
pub fn file<D: Disk>(alloc: Global, disk: &mut D, held: &Held) -> Result<Text, ShelfErr>
    requires { IsTrue (is_served held.now.body) }
    ensures told { IfOk result (IsTold (body_told (D.state disk.old) held.now.body)) }
    ensures stamped { IfOk result (λ text. IsStampOf text held.now.stamp) }
    ensures rests { Rests (D.state disk.old) (D.state disk.new) }
    ensures cause { IfErr result (ShelfCause (D.state disk.old).faults (D.state disk.new).faults
        (body_told (D.state disk.old) held.now.body) held.now) }
{
    match held.body() {
        Body::Here(text) => Ok(Text::from_bytes(alloc, text.bytes())?),
        Body::Kept(home) => kept_file(alloc, disk, home, held.stamp()),
        Body::Depot(_) => unreachable!(),
    }
}

/// Reads a held file, which is here or kept in the store under a number up to 262,143, in pieces of at most 65,536 bytes, and
/// compares it with its stamp.
///
/// # Errors
/// As for `file`: `Ok` comes exactly where the bytes have the listed stamp.
pub fn verify<D: Disk>(alloc: Global, disk: &mut D, held: &Held) -> Result<(), ShelfErr>
    requires { IsTrue (is_served held.now.body) }
    ensures listed { OnOk result (IsListed (body_told (D.state disk.old) held.now.body) held.now.stamp) }
    ensures rests { Rests (D.state disk.old) (D.state disk.new) }
    ensures cause { IfErr result (ShelfCause (D.state disk.old).faults (D.state disk.new).faults
        (body_told (D.state disk.old) held.now.body) held.now) }
{
    match held.body() {
        Body::Here(_) => Ok(()),
        Body::Kept(home) => verify_kept(alloc, disk, home, held.stamp()),
        Body::Depot(_) => unreachable!(),
    }
}

// All bytes of a kept file.
fn kept_file<D: Disk>(
    alloc: Global,
    disk: &mut D,
    home: &Home,
    listed: &Stamp,
) -> Result<Text, ShelfErr>
    requires { IsFileNumber home.now.file }
    ensures told { IfOk result (IsTold (path_told (D.state disk.old) (home_path home.now.generation home.now.file))) }
    ensures stamped { IfOk result (λ text. IsStampOf text listed.now) }
    ensures rests { Rests (D.state disk.old) (D.state disk.new) }
    ensures cause { IfErr result (KeptCause (D.state disk.old) (D.state disk.new) home.now listed.now) }
{
    let path = home_path(alloc, home.generation, home.file)?;
    match read_file(alloc, disk, &path, listed.size as usize)? {
        Found::File(text) => stamped(text, home, listed),
        Found::Absent | Found::Folder | Found::TooLong => Err(damaged(home, listed, None)),
    }
}

// The text, where it has the listed stamp.
fn stamped(text: Text, home: &Home, listed: &Stamp) -> Result<Text, ShelfErr>
    ensures ok { IfOk result (λ same. (same ≡ text) × IsStampOf text listed.now) }
    ensures err { IfErr result (λ e. DiffersSo text home.now listed.now e) }
{
    let found = stamp_of(text.bytes());
    if found == *listed {
        Ok(text)
    } else if found.size == listed.size {
        Err(damaged(home, listed, Some(found)))
    } else {
        Err(damaged(home, listed, None))
    }
}

/// Compares a kept file with its stamp.
///
/// # Errors
/// As for `verify`.
pub(crate) fn verify_kept<D: Disk>(
    alloc: Global,
    disk: &mut D,
    home: &Home,
    listed: &Stamp,
) -> Result<(), ShelfErr>
    requires { IsFileNumber home.now.file }
    ensures listed { OnOk result (IsListed (path_told (D.state disk.old) (home_path home.now.generation home.now.file)) listed.now) }
    ensures rests { Rests (D.state disk.old) (D.state disk.new) }
    ensures cause { IfErr result (KeptCause (D.state disk.old) (D.state disk.new) home.now listed.now) }
{
    let path = home_path(alloc, home.generation, home.file)?;
    let found = digest_at(alloc, disk, &path, listed.size)?;
    compare(found, home, listed)
}

/// Compares the digest of a file of the listed size, if there is one, with the listed digest.
///
/// # Errors
/// `Damaged` alone, where there is none or another.
pub(crate) fn compare(found: Option<Digest>, home: &Home, listed: &Stamp) -> Result<(), ShelfErr>
    ensures ok { OnOk result (found ≡ Some listed.now.digest) }
    ensures err { IfErr result (λ e. DigestDiffersSo found home.now listed.now e) }
{
    match found {
        Some(digest) if digest == listed.digest => Ok(()),
        Some(digest) => {
            let size = listed.size;
            Err(damaged(home, listed, Some(Stamp { size, digest })))
        }
        None => Err(damaged(home, listed, None)),
    }
}

/// A kept file is not what it is listed as.
pub(crate) fn damaged(home: &Home, listed: &Stamp, found: Option<Stamp>) -> ShelfErr
    ensures { result ≡ errors.Damaged (record { home = home.now; listed = listed.now; found = found }) }
{
    ShelfErr::Damaged(Damage {
        home: *home,
        listed: *listed,
        found,
    })
}
