// A kept file, compared with a file of the depot or with bytes that are here, in one pass over both.
ghost use Rattle.std.specs.Prelude.{◌≡◌, ◌^◌, ◌<◌, length, IfOk, IfErr};
ghost use Rattle.ext_disk.specs.Since.{Rests};
ghost use Rattle.ext_depot.specs.Depot.{IsKept};
ghost use Rattle.ext_host.specs.Held.{IsStampOf};
ghost use Rattle.ext_host.specs.Shelf.{stored};
ghost use Rattle.ext_store_files.specs.Names.{IsFileNumber, home_path};
ghost use Rattle.ext_store_files.specs.Reading.{HasSize, ReadCause};
ghost use Rattle.ext_store_files.specs.HeldFiles.{path_told, IsDigestAt, KeptCause};
ghost use Rattle.ext_store_files.specs.Copying.{depot_told};
ghost use Rattle.ext_store_files.specs.Comparing.{IsCompared, CompareCause, IsPass, IsTextPass};

use crate::beside::{Beside, begin, end, follow, is_still_same};
use crate::errors::{CompareErr, CopyErr, ReadErr};
use crate::fault::StoreFault;
use crate::hashing::hash_piece;
use crate::held_files::{compare, damaged};
use crate::paths::home_path;
use ext_depot::Depot;
use ext_disk::{Disk, Kind};
use ext_host::{Home, ShelfErr};
use ext_io::{PIECE, zeros};
use ext_text::{Digest, Path};
use ext_tree::Stamp;
use sha2::Sha256;
use std::alloc::Global;

/// Whether a file of the depot has the same bytes as the file that the store keeps at a home, under a number up to 262,143,
/// where both are listed with a stamp. Each is read once, in pieces of at most 65,536 bytes: the kept one to its end, and
/// beside it the depot's, no further than one byte past its listed size. The pieces are hashed and compared.
///
/// # Errors
/// - `Damaged` exactly where what stands at the home has another stamp.
/// - Then `NotInDepot` exactly where the depot has no such file, and `Mismatch` exactly where what was read of it has
///   another stamp.
/// - A fault of the disk or of the depot, only where that counted one.
/// - Out of memory.
///
/// Nothing changes.
pub fn is_same_as_kept<D: Disk, P: Depot>(
    alloc: Global,
    disk: &mut D,
    home: &Home,
    depot: &mut P,
    from: &Path,
    listed: &Stamp,
) -> Result<bool, CompareErr>
    requires number { IsFileNumber home.now.file }
    requires size { listed.now.size < 2 ^ 63 }
    ensures compared { IfOk result (IsCompared (path_told (D.state disk.old) (home_path home.now.generation home.now.file))
        (depot_told (P.state depot.old) from.now) listed.now) }
    ensures rests { Rests (D.state disk.old) (D.state disk.new) }
    ensures kept { IsKept (P.state depot.old) (P.state depot.new) }
    ensures cause { IfErr result (CompareCause (D.state disk.old) (D.state disk.new) (P.state depot.old) (P.state depot.new)
        (path_told (D.state disk.old) (home_path home.now.generation home.now.file))
        (depot_told (P.state depot.old) from.now) home.now listed.now) }
{
    let path = home_path(alloc, home.generation, home.file)?;
    match disk.kind(&path) {
        Err(_) => Err(CompareErr::Fault(StoreFault::DiskFault)),
        Ok(Some(Kind::File(size))) if size == listed.size => {
            is_same(alloc, disk, &path, home, depot, from, listed)
        }
        Ok(_) => Err(CompareErr::from(damaged(home, listed, None))),
    }
}

// Whether a file of the depot has the same bytes as the kept file at a path, which has the listed size.
fn is_same<D: Disk, P: Depot>(
    alloc: Global,
    disk: &mut D,
    path: &Path,
    home: &Home,
    depot: &mut P,
    from: &Path,
    listed: &Stamp,
) -> Result<bool, CompareErr>
    requires file { HasSize (D.state disk.old) path.now listed.now.size }
    requires size { listed.now.size < 2 ^ 63 }
    ensures compared { IfOk result (IsCompared (path_told (D.state disk.old) path.now)
        (depot_told (P.state depot.old) from.now) listed.now) }
    ensures rests { Rests (D.state disk.old) (D.state disk.new) }
    ensures kept { IsKept (P.state depot.old) (P.state depot.new) }
    ensures cause { IfErr result (CompareCause (D.state disk.old) (D.state disk.new) (P.state depot.old) (P.state depot.new)
        (path_told (D.state disk.old) path.now) (depot_told (P.state depot.old) from.now) home.now listed.now) }
{
    let Pass { digest, brought } = read_both(alloc, disk, path, depot, from, listed)?;
    compare(digest, home, listed)?;
    let beside = brought?;
    let same = end(depot, from, listed, beside)?;
    Ok(same)
}

// What one pass over both files gave: the digest of the kept one, unless it ended early, and what was read of the other.
struct Pass {
    digest: Option<Digest>,
    brought: Result<Beside, CopyErr>,
}

// Reads both files, a piece of the kept one before that of the other. Whatever becomes of the other, the kept one is read to
// its end.
fn read_both<D: Disk, P: Depot>(
    alloc: Global,
    disk: &mut D,
    path: &Path,
    depot: &mut P,
    from: &Path,
    listed: &Stamp,
) -> Result<Pass, ReadErr>
    requires file { HasSize (D.state disk.old) path.now listed.now.size }
    requires size { listed.now.size < 2 ^ 63 }
    ensures digest { IfOk result (λ pass. IsDigestAt (path_told (D.state disk.old) path.now) listed.now.size pass.digest) }
    ensures brought { IfOk result (IsPass (P.state depot.old) (P.state depot.new) (path_told (D.state disk.old) path.now)
        (depot_told (P.state depot.old) from.now) listed.now) }
    ensures rests { Rests (D.state disk.old) (D.state disk.new) }
    ensures kept { IsKept (P.state depot.old) (P.state depot.new) }
    ensures cause { IfErr result (ReadCause (D.state disk.old).faults (D.state disk.new).faults) }
{
    let mut ours = zeros(alloc, PIECE.min(listed.size as usize))?;
    let mut theirs = zeros(alloc, PIECE.min(listed.size as usize))?;
    let mut hasher = <Sha256 as sha2::Digest>::new();
    let mut brought = begin(depot, from);
    let mut at = 0;
    'pieces: while at < listed.size {
        let room = PIECE.min((listed.size - at) as usize);
        let part = &mut ours[..room];
        let count = hash_piece(disk, path, at, part, &mut hasher)?;
        if count == 0 {
            return Ok(Pass {
                digest: None,
                brought,
            });
        }
        brought = follow(
            depot,
            from,
            at,
            &part[..count],
            listed,
            &mut theirs,
            brought,
        );
        at += count as u64;
    }
    let digest = Some(Digest(<Sha256 as sha2::Digest>::finalize(hasher)));
    Ok(Pass { digest, brought })
}

/// Whether the file that the store keeps at a home, under a number up to 262,143, has these bytes, which have the stamp that it
/// is listed with. It is read once, to its end, in pieces of at most 65,536 bytes, which are hashed and compared.
///
/// # Errors
/// - `Fault` only where the disk counted one.
/// - `Damaged` exactly where what stands at the home has another stamp.
/// - Out of memory.
///
/// The disk is as before.
pub fn is_same_as_text<D: Disk>(
    alloc: Global,
    disk: &mut D,
    home: &Home,
    listed: &Stamp,
    text: &[u8],
) -> Result<bool, ShelfErr>
    requires number { IsFileNumber home.now.file }
    requires stamp { IsStampOf text.now listed.now }
    ensures compared { IfOk result (IsCompared (path_told (D.state disk.old) (home_path home.now.generation home.now.file))
        (stored text.now) listed.now) }
    ensures rests { Rests (D.state disk.old) (D.state disk.new) }
    ensures cause { IfErr result (KeptCause (D.state disk.old) (D.state disk.new) home.now listed.now) }
{
    let path = home_path(alloc, home.generation, home.file)?;
    let TextPass { digest, same } = read_with_text(alloc, disk, &path, text)?;
    compare(digest, home, listed)?;
    Ok(same)
}

// What one pass over a kept file gave: its digest, if it has the size of the text, and whether it has its bytes.
struct TextPass {
    digest: Option<Digest>,
    same: bool,
}

// Reads what stands at a path beside a text.
fn read_with_text<D: Disk>(
    alloc: Global,
    disk: &mut D,
    path: &Path,
    text: &[u8],
) -> Result<TextPass, ReadErr>
    ensures pass { IfOk result (IsTextPass (path_told (D.state disk.old) path.now) text.now) }
    ensures rests { Rests (D.state disk.old) (D.state disk.new) }
    ensures cause { IfErr result (ReadCause (D.state disk.old).faults (D.state disk.new).faults) }
{
    match disk.kind(path)? {
        Some(Kind::File(size)) if size == text.len() as u64 => {
            read_whole(alloc, disk, path, text)
        }
        _ => Ok(TextPass {
            digest: None,
            same: false,
        }),
    }
}

// Reads a file beside a text of its size.
fn read_whole<D: Disk>(
    alloc: Global,
    disk: &mut D,
    path: &Path,
    text: &[u8],
) -> Result<TextPass, ReadErr>
    requires { HasSize (D.state disk.old) path.now (length text.now) }
    ensures pass { IfOk result (IsTextPass (path_told (D.state disk.old) path.now) text.now) }
    ensures rests { Rests (D.state disk.old) (D.state disk.new) }
    ensures cause { IfErr result (ReadCause (D.state disk.old).faults (D.state disk.new).faults) }
{
    let mut buffer = zeros(alloc, PIECE.min(text.len()))?;
    let mut hasher = <Sha256 as sha2::Digest>::new();
    let mut same = true;
    let mut at = 0;
    'pieces: while at < text.len() {
        let room = PIECE.min(text.len() - at);
        let part = &mut buffer[..room];
        let count = hash_piece(disk, path, at as u64, part, &mut hasher)?;
        if count == 0 {
            return Ok(TextPass { digest: None, same });
        }
        same = is_still_same(same, &part[..count], &text[at..at + count]);
        at += count;
    }
    let digest = Some(Digest(<Sha256 as sha2::Digest>::finalize(hasher)));
    Ok(TextPass { digest, same })
}
