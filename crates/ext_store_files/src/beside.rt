// A file of the depot, read beside the bytes of another, and compared with them piece by piece.
ghost use Rattle.std.specs.Prelude.{◌≡◌, ℕ, ◌+◌, ◌^◌, ◌<◌, ◌≤◌, ◌↔◌, List, [], ◌++◌, length, IsTrue, IfOk, IfErr};
ghost use Rattle.ext_depot.specs.Depot.{DepotState, IsKept};
ghost use Rattle.ext_host.specs.Held.{IsStampOf};
ghost use Rattle.ext_host.specs.Shelf.{Told, IsTold};
ghost use Rattle.ext_store_files.specs.declared.errors.CopyErr.TheVariants as errors;
ghost use Rattle.ext_store_files.specs.HeldFiles.{IsListed};
ghost use Rattle.ext_store_files.specs.Copying.{depot_told, IsThere};
ghost use Rattle.ext_store_files.specs.Beside.{IsBeside, IsFollowed, DepotCause};
ghost use Rattle.ext_store_files.specs.Comparing.{IsSame};

use crate::copying::{hash_piece, stamp};
use crate::errors::CopyErr;
use ext_depot::Depot;
use ext_io::are_equal;
use ext_text::Path;
use ext_tree::Stamp;
use sha2::Sha256;

/// What was read of a file of the depot beside as many bytes of another: it is hashed, and the same or not.
#[derive(Drop)]
pub(crate) struct Beside {
    hasher: Sha256,
    same: bool,
}

/// Begins to read a file of the depot beside another.
///
/// # Errors
/// The depot has no such file, or had a fault.
pub(crate) fn begin<P: Depot>(depot: &mut P, from: &Path) -> Result<Beside, CopyErr>
    ensures followed { (listed : Stamp) → IsFollowed (P.state depot.old) (P.state depot.new)
        (depot_told (P.state depot.old) from.now) listed [] result }
    ensures kept { IsKept (P.state depot.old) (P.state depot.new) }
{
    match depot.size(from) {
        Err(_) => Err(CopyErr::DepotFault),
        Ok(None) => Err(CopyErr::NotInDepot),
        Ok(Some(_)) => Ok(Beside {
            hasher: <Sha256 as sha2::Digest>::new(),
            same: true,
        }),
    }
}

/// Reads on beside a piece of the other file, from the byte `at` on, unless it was found before that the depot has not the
/// listed file.
///
/// # Errors
/// - The one that was found before.
/// - `Mismatch` where the file of the depot ends before the piece does.
/// - The depot had a fault.
pub(crate) fn follow<P: Depot>(
    depot: &mut P,
    from: &Path,
    at: u64,
    piece: &[u8],
    listed: &Stamp,
    buffer: &mut [u8],
    brought: Result<Beside, CopyErr>,
) -> Result<Beside, CopyErr>
    requires there { IfOk brought (λ _. IsThere (P.state depot.old) from.now) }
    requires within { at + length piece.now ≤ listed.now.size }
    requires size { listed.now.size < 2 ^ 63 }
    requires room { length piece.now ≤ length buffer.old }
    ensures followed { (before : DepotState) (xs : List ℕ) → length xs ≡ at → IsKept before (P.state depot.old)
        → IsFollowed before (P.state depot.old) (depot_told before from.now) listed.now xs brought
        → IsFollowed before (P.state depot.new) (depot_told before from.now) listed.now (xs ++ piece.now) result }
    ensures kept { IsKept (P.state depot.old) (P.state depot.new) }
{
    match brought {
        Ok(beside) => read_beside(depot, from, at, piece, listed, buffer, beside),
        Err(refused) => Err(refused),
    }
}

// Reads as many bytes as a piece has, hashes them, and compares them with it.
fn read_beside<P: Depot>(
    depot: &mut P,
    from: &Path,
    at: u64,
    piece: &[u8],
    listed: &Stamp,
    buffer: &mut [u8],
    beside: Beside,
) -> Result<Beside, CopyErr>
    requires there { IsThere (P.state depot.old) from.now }
    requires within { at + length piece.now ≤ listed.now.size }
    requires size { listed.now.size < 2 ^ 63 }
    requires room { length piece.now ≤ length buffer.old }
    ensures followed { (xs : List ℕ) → length xs ≡ at → IsBeside (depot_told (P.state depot.old) from.now) xs beside
        → IsFollowed (P.state depot.old) (P.state depot.new) (depot_told (P.state depot.old) from.now) listed.now
        (xs ++ piece.now) result }
    ensures kept { IsKept (P.state depot.old) (P.state depot.new) }
{
    let Beside {
        mut hasher,
        mut same,
    } = beside;
    let mut done = 0;
    'reads: while done < piece.len() {
        let room = piece.len() - done;
        let part = &mut buffer[..room];
        let place = at + done as u64;
        let count = hash_piece(depot, from, place, part, &mut hasher)?;
        if count == 0 {
            return Err(mismatch(listed, stamp(place, hasher)));
        }
        same = is_still_same(same, &piece[done..done + count], &part[..count]);
        done += count;
    }
    Ok(Beside { hasher, same })
}

/// Whether what was the same so far still is after these pieces.
pub(crate) fn is_still_same(same: bool, ours: &[u8], theirs: &[u8]) -> bool
    ensures { IsTrue result ↔ (IsTrue same × (ours.now ≡ theirs.now)) }
{
    same && are_equal(ours, theirs)
}

// What was read of the depot's file has another stamp than listed.
fn mismatch(listed: &Stamp, found: Stamp) -> CopyErr
    ensures { result ≡ errors.Mismatch listed.now found }
{
    CopyErr::Mismatch {
        listed: *listed,
        found,
    }
}

/// Whether a file of the depot that was read beside as many bytes as are listed has the same, where it ends with them and has
/// the listed stamp. One byte more is read.
///
/// # Errors
/// `Mismatch` exactly where it goes on or has another stamp, and a fault of the depot.
pub(crate) fn end<P: Depot>(
    depot: &mut P,
    from: &Path,
    listed: &Stamp,
    beside: Beside,
) -> Result<bool, CopyErr>
    requires there { IsThere (P.state depot.old) from.now }
    requires size { listed.now.size < 2 ^ 63 }
    ensures same { (ours : Told) (xs : List ℕ) → IsTold ours xs → length xs ≡ listed.now.size
        → IsBeside (depot_told (P.state depot.old) from.now) xs beside
        → IfOk result (λ same. IsListed (depot_told (P.state depot.old) from.now) listed.now
        × IsSame ours (depot_told (P.state depot.old) from.now) same) }
    ensures kept { IsKept (P.state depot.old) (P.state depot.new) }
    ensures cause { (xs : List ℕ) → length xs ≡ listed.now.size
        → IsBeside (depot_told (P.state depot.old) from.now) xs beside
        → IfErr result (DepotCause (P.state depot.old) (P.state depot.new) (depot_told (P.state depot.old) from.now) listed.now) }
{
    let Beside { mut hasher, same } = beside;
    let mut byte = [0u8; 1];
    let more = hash_piece(depot, from, listed.size, &mut byte, &mut hasher)?;
    let found = stamp(listed.size + more as u64, hasher);
    if found == *listed {
        Ok(same)
    } else {
        Err(mismatch(listed, found))
    }
}
