// The files that a check has verified, so that each home is read once.
ghost use Rattle.std.specs.Prelude.{◌≡◌, OnOk, IfErr, IsTrue, Some};
ghost use Rattle.std.specs.BTreeMap.{get};
ghost use Rattle.ext_disk.specs.Since.{Rests};
ghost use Rattle.ext_host.specs.Shelf.{ShelfCause};
ghost use Rattle.ext_store_files.specs.HeldFiles.{body_told};
ghost use Rattle.ext_gen.specs.Checking.{IsAsListed, IsServed};
ghost use Rattle.ext_index_reader.specs.Homes.{home_cmp};
ghost use Rattle.ext_gen.specs.Verified.{AreVerified, IsNoted, NotesToo};

use ext_disk::Disk;
use ext_host::{Body, Held, Home, ShelfErr};
use ext_store_files::verify;
use ext_text::OutOfMemory;
use ext_tree::Stamp;
use std::alloc::Global;
use std::collections::BTreeMap;

// The homes that were read, by their generations and numbers, each with the stamp that its file was verified to have.
pub(crate) type Verified = BTreeMap<(u32, u32), Stamp>;

// Compares a file with its stamp. One that is kept is read only where its home was not verified to have this stamp.
pub(crate) fn verify_once<D: Disk>(
    alloc: Global,
    disk: &mut D,
    verified: &mut Verified,
    held: &Held,
) -> Result<(), ShelfErr>
    requires served { IsServed held.now }
    requires known { AreVerified (D.state disk.old) verified.old }
    ensures listed { OnOk result (IsAsListed (D.state disk.old) held.now) }
    ensures known { OnOk result (AreVerified (D.state disk.new) verified.new) }
    ensures rests { Rests (D.state disk.old) (D.state disk.new) }
    ensures cause { IfErr result (ShelfCause (D.state disk.old).faults (D.state disk.new).faults
        (body_told (D.state disk.old) held.now.body) held.now) }
{
    if is_verified(verified, held) {
        return Ok(());
    }
    verify(alloc, disk, held)?;
    note(verified, held)?;
    Ok(())
}

// Whether the file's home was verified to have the file's stamp.
fn is_verified(verified: &Verified, held: &Held) -> bool
    ensures { IsTrue result → IsNoted verified.now held.now.body held.now.stamp }
{
    match held.body() {
        Body::Kept(home) => has_stamp(verified, home, held.stamp()),
        Body::Here(_) | Body::Depot(_) => false,
    }
}

// Whether the home was verified to have the stamp.
fn has_stamp(verified: &Verified, home: &Home, stamp: &Stamp) -> bool
    ensures { IsTrue result → get home_cmp verified.now (home.now.generation, home.now.file) ≡ Some stamp.now }
{
    match verified.get(&(home.generation, home.file)) {
        None => false,
        Some(other) => *other == *stamp,
    }
}

// Notes that the home of a file was verified to have the file's stamp.
fn note(verified: &mut Verified, held: &Held) -> Result<(), OutOfMemory>
    ensures { OnOk result (NotesToo verified.old verified.new held.now.body held.now.stamp) }
{
    match held.body() {
        Body::Kept(home) => {
            let _ = verified.insert((home.generation, home.file), *held.stamp())?;
            Ok(())
        }
        Body::Here(_) | Body::Depot(_) => Ok(()),
    }
}
