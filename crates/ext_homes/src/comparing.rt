// A brought file, compared with the stored files of its stamp.
ghost use Rattle.std.specs.Prelude.{◌≡◌, ◌⊎◌, ◌<◌, ◌^◌, true, IfOk, IfErr};
ghost use Rattle.ext_depot.specs.Depot.{IsKept};
ghost use Rattle.ext_disk.specs.Since.{Rests};
ghost use Rattle.ext_store_files.specs.Comparing.{IsCompared};
ghost use Rattle.ext_store_files.specs.Names.{IsFileNumber};
ghost use Rattle.ext_homes.specs.Brought.{is_brought};
ghost use Rattle.ext_homes.specs.Comparing.{IsLeastOrNone, SameCause, homes_err_of_compare, stored_in};
ghost use Rattle.ext_store_files.specs.declared.fault.StoreFault.TheVariants as store_faults;
ghost use Rattle.ext_homes.specs.declared.errors.HomesErr.TheVariants as errors;
ghost use Rattle.ext_homes.specs.Giving.{AreNumbered, home_told};
ghost use Rattle.ext_homes.specs.KeptFiles.{lists_in};
ghost use Rattle.ext_homes.specs.Placed.{brought_told};
ghost use Rattle.ext_homes.specs.Refused.{HomeCause};

use crate::errors::{HomesErr, mismatch, not_in_depot};
use crate::kept_files::KeptFiles;
use ext_depot::Depot;
use ext_disk::Disk;
use ext_host::{Body, Held, Home};
use ext_store_files::{CompareErr, is_same_as_kept, is_same_as_text};
use ext_text::Path;
use std::alloc::Global;

/// The least home at which the store has a file of the brought file's stamp and bytes; `None` where it has none.
///
/// # Errors
/// - `Damaged` where a home that was looked at has another file than listed.
/// - Then `NotInDepot` and `Mismatch` where the depot has none, or another than listed.
/// - A fault of the disk or of the depot.
/// - Out of memory.
///
/// Nothing changes.
pub(crate) fn least_home<D: Disk, P: Depot>(
    alloc: Global,
    disk: &mut D,
    depot: &mut P,
    kept: &KeptFiles,
    held: &Held,
) -> Result<Option<Home>, HomesErr>
    requires numbers { AreNumbered (lists_in kept.now) }
    requires brought { is_brought held.now.body ≡ true }
    requires size { held.now.stamp.size < 2 ^ 63 }
    ensures least { IfOk result (IsLeastOrNone (stored_in kept.now (D.state disk.old)) held.now.stamp
        (brought_told (P.state depot.old) held.now.body)) }
    ensures rests { Rests (D.state disk.old) (D.state disk.new) }
    ensures kept { IsKept (P.state depot.old) (P.state depot.new) }
    ensures cause { IfErr result (HomeCause (D.state disk.old) (D.state disk.new) (P.state depot.old) (P.state depot.new)
        (stored_in kept.now (D.state disk.old)) held.now) }
{
    for file in kept.of_stamp(held.stamp()) {
        let home = file.home();
        if is_same(alloc, disk, depot, &home, held)? {
            return Ok(Some(home));
        }
    }
    Ok(None)
}

// Whether the file that is kept at a home has the bytes of a brought file, where it is listed with the same stamp.
fn is_same<D: Disk, P: Depot>(
    alloc: Global,
    disk: &mut D,
    depot: &mut P,
    home: &Home,
    held: &Held,
) -> Result<bool, HomesErr>
    requires number { IsFileNumber home.now.file }
    requires brought { is_brought held.now.body ≡ true }
    requires size { held.now.stamp.size < 2 ^ 63 }
    ensures compared { IfOk result (IsCompared (home_told (D.state disk.old) home.now)
        (brought_told (P.state depot.old) held.now.body) held.now.stamp) }
    ensures rests { Rests (D.state disk.old) (D.state disk.new) }
    ensures kept { IsKept (P.state depot.old) (P.state depot.new) }
    ensures cause { IfErr result (SameCause (D.state disk.old) (D.state disk.new) (P.state depot.old) (P.state depot.new)
        (home_told (D.state disk.old) home.now) home.now held.now) }
{
    match held.body() {
        Body::Here(text) => Ok(is_same_as_text(alloc, disk, home, held.stamp(), text.bytes())?),
        Body::Depot(from) => {
            let from = from.path();
            match is_same_as_kept(alloc, disk, home, depot, from, held.stamp()) {
                Ok(same) => Ok(same),
                Err(refused) => Err(compare_err(refused, from)),
            }
        }
        Body::Kept(_) => unreachable!(),
    }
}

// The error of a comparison, with the path of the depot's file.
fn compare_err(refused: CompareErr, from: &Path) -> HomesErr
    ensures { (result ≡ homes_err_of_compare refused from.now) ⊎ (result ≡ errors.Fault store_faults.OutOfMemory) }
{
    match refused {
        CompareErr::Fault(fault) => HomesErr::Fault(fault),
        CompareErr::NotInDepot => not_in_depot(from),
        CompareErr::Mismatch { listed, found } => mismatch(from, listed, found),
    }
}
