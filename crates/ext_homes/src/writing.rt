// A brought file, written into the folder of the coming generation.
ghost use Rattle.std.specs.Prelude.{◌≡◌, ◌⊎◌, ◌+◌, ◌<◌, ◌^◌, true, OnOk, IfErr};
ghost use Rattle.ext_text.specs.Path.{is_prefix};
ghost use Rattle.ext_depot.specs.Depot.{IsKept};
ghost use Rattle.ext_disk.specs.Disk.{BothTold};
ghost use Rattle.ext_disk.specs.Calls.{MayCall, make_file};
ghost use Rattle.ext_store_files.specs.Names.{home_path};
ghost use Rattle.ext_store_files.specs.Writing.{Holds, Works, is_at};
ghost use Rattle.ext_homes.specs.Brought.{is_brought};
ghost use Rattle.ext_homes.specs.Placed.{brought_told};
ghost use Rattle.ext_homes.specs.Written.{HasHomes, HasOnlyHomes, is_below};
ghost use Rattle.ext_homes.specs.Writing.{FolderCause, IsPut, Opens, WritesBrought, WriteCause, homes_err_of_copy};
ghost use Rattle.ext_store_files.specs.declared.fault.StoreFault.TheVariants as store_faults;
ghost use Rattle.ext_homes.specs.declared.errors.HomesErr.TheVariants as errors;
ghost use Rattle.ext_host.specs.Home.{most_files_of_generation};

use crate::errors::{HomesErr, mismatch, not_in_depot};
use ext_depot::Depot;
use ext_disk::Disk;
use ext_host::{Body, Held};
use ext_store_files::{
    CopyErr, FILES_OF_A_FOLDER, StoreFault, copy_from_depot, home_folder, home_path, make_folder,
    write_file,
};
use ext_text::Path;
use std::alloc::Global;

/// Writes a brought file under a number, where those before it are written, and syncs its bytes.
pub(crate) fn write_brought<D: Disk, P: Depot>(
    alloc: Global,
    disk: &mut D,
    depot: &mut P,
    generation: u32,
    number: u32,
    held: &Held,
) -> Result<(), HomesErr>
    requires number { number < most_files_of_generation }
    requires brought { is_brought held.now.body ≡ true }
    requires size { held.now.stamp.size < 2 ^ 63 }
    requires homes { Holds (HasHomes generation number) (D.state disk.old) }
    ensures works { Works (is_below generation) (is_below generation) held.now.stamp.size (D.state disk.old) (D.state disk.new) }
    ensures only { Holds (HasOnlyHomes generation (number + 1)) (D.state disk.new) }
    ensures kept { IsKept (P.state depot.old) (P.state depot.new) }
    ensures written { OnOk result (WritesBrought generation number (brought_told (P.state depot.old) held.now.body) held.now.stamp
        (D.state disk.old) (D.state disk.new)) }
    ensures cause { IfErr result (WriteCause (D.state disk.old) (D.state disk.new) (P.state depot.old) (P.state depot.new) held.now) }
{
    make_home_folder(alloc, disk, generation, number)?;
    let path = home_path(alloc, generation, number)?;
    put_file(alloc, disk, depot, &path, held)
}

// Makes the folder of the file of a number, where it is the first one there.
fn make_home_folder<D: Disk>(
    alloc: Global,
    disk: &mut D,
    generation: u32,
    number: u32,
) -> Result<(), HomesErr>
    requires number { number < most_files_of_generation }
    requires homes { Holds (HasHomes generation number) (D.state disk.old) }
    ensures works { Works (is_below generation) (is_below generation) 0 (D.state disk.old) (D.state disk.new) }
    ensures only { Holds (HasOnlyHomes generation (number + 1)) (D.state disk.new) }
    ensures opens { OnOk result (BothTold (Opens generation number) (D.state disk.old).told (D.state disk.new).told) }
    ensures cause { IfErr result (FolderCause (D.state disk.old) (D.state disk.new)) }
{
    if number % FILES_OF_A_FOLDER != 0 {
        return Ok(());
    }
    let folder = home_folder(alloc, generation, number)?;
    match make_folder(disk, &folder) {
        Ok(()) => Ok(()),
        Err(_) => Err(HomesErr::Fault(StoreFault::DiskFault)),
    }
}

// Writes the bytes of a brought file to a path at which nothing stands, in a folder.
fn put_file<D: Disk, P: Depot>(
    alloc: Global,
    disk: &mut D,
    depot: &mut P,
    path: &Path,
    held: &Held,
) -> Result<(), HomesErr>
    requires free { MayCall (make_file path.now) (D.state disk.old) }
    requires brought { is_brought held.now.body ≡ true }
    requires size { held.now.stamp.size < 2 ^ 63 }
    ensures works { Works (is_prefix path.now) (is_at path.now) held.now.stamp.size (D.state disk.old) (D.state disk.new) }
    ensures kept { IsKept (P.state depot.old) (P.state depot.new) }
    ensures put { OnOk result (IsPut (brought_told (P.state depot.old) held.now.body) held.now.stamp path.now (D.state disk.old)
        (D.state disk.new)) }
    ensures cause { IfErr result (WriteCause (D.state disk.old) (D.state disk.new) (P.state depot.old) (P.state depot.new) held.now) }
{
    match held.body() {
        Body::Here(text) => match write_file(disk, path, text.bytes()) {
            Ok(()) => Ok(()),
            Err(_) => Err(HomesErr::Fault(StoreFault::DiskFault)),
        },
        Body::Depot(from) => {
            let from = from.path();
            match copy_from_depot(alloc, disk, path, depot, from, held.stamp()) {
                Ok(()) => Ok(()),
                Err(refused) => Err(copy_err(refused, from)),
            }
        }
        Body::Kept(_) => unreachable!(),
    }
}

// The error of a copy, with the path of the depot's file.
fn copy_err(refused: CopyErr, from: &Path) -> HomesErr
    ensures { (result ≡ homes_err_of_copy refused from.now) ⊎ (result ≡ errors.Fault store_faults.OutOfMemory) }
{
    match refused {
        CopyErr::OutOfMemory => HomesErr::Fault(StoreFault::OutOfMemory),
        CopyErr::DiskFault => HomesErr::Fault(StoreFault::DiskFault),
        CopyErr::DepotFault => HomesErr::Fault(StoreFault::DepotFault),
        CopyErr::NotInDepot => not_in_depot(from),
        CopyErr::Mismatch { listed, found } => mismatch(from, listed, found),
    }
}
