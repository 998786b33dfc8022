// Transfer files are read, one after the other.
ghost use Rattle.std.specs.Prelude.{◌≤◌, IsTrue};
ghost use Rattle.ext_feature.specs.Reading.{AreServed, ReadsTransferFile, ReadsTransferText, ReadsTransfers};

use crate::basis::Basis;
use crate::errors::ActiveErr;
use crate::feature::Transfers;
use ext_configs::ConfigFile;
use ext_host::{Held, Shelf};
use ext_lines::allocated;
use ext_text::Name;
use ext_transfer::{Transfer, TransferErr, read_transfer};
use std::alloc::Global;

// The transfers that files say, in the order of these.
pub(crate) fn read_transfers<'a, H: Shelf>(
    alloc: Global,
    files: &[ConfigFile<'a, Held>],
    basis: &Basis,
    shelf: &mut H,
) -> Result<Transfers, ActiveErr>
    requires { AreServed (H.serves shelf.old) files.now }
    ensures gives { ReadsTransfers (H.told shelf.old) (H.faults shelf.old) (H.faults shelf.new) basis.now.arch basis.now.host
        files.now result }
    ensures stays { H.stays shelf.old shelf.new }
    ensures count { H.faults shelf.old ≤ H.faults shelf.new }
{
    let mut transfers = allocated(Vec::with_capacity(alloc, files.len()))?;
    for file in files {
        match transfer_of(alloc, file, basis, shelf) {
            Ok(transfer) => allocated(transfers.push(transfer))?,
            Err(failed) => return Err(failed),
        }
    }
    Ok(Transfers::from_vec(transfers))
}

// The transfer that a file says.
fn transfer_of<'a, H: Shelf>(
    alloc: Global,
    file: &ConfigFile<'a, Held>,
    basis: &Basis,
    shelf: &mut H,
) -> Result<Transfer, ActiveErr>
    requires { IsTrue (H.serves shelf.old file.now.content.now) }
    ensures gives { ReadsTransferFile (H.told shelf.old) (H.faults shelf.old) (H.faults shelf.new) basis.now.arch basis.now.host
        file.now result }
    ensures stays { H.stays shelf.old shelf.new }
    ensures count { H.faults shelf.old ≤ H.faults shelf.new }
{
    let text = shelf.bytes(alloc, file.content)?;
    transfer_in(alloc, &file.name, text.bytes(), basis)
}

// The transfer that a file of this name and these bytes says.
fn transfer_in(
    alloc: Global,
    file: &Name,
    bytes: &[u8],
    basis: &Basis,
) -> Result<Transfer, ActiveErr>
    ensures { ReadsTransferText basis.now.arch basis.now.host file.now bytes.now result }
{
    match read_transfer(alloc, file, bytes, basis.host.as_ref(), basis.arch) {
        Ok(transfer) => Ok(transfer),
        Err(TransferErr::OutOfMemory) => Err(ActiveErr::OutOfMemory),
        Err(TransferErr::BadTransfer { line, why }) => Err(ActiveErr::BadTransfer {
            file: file.copy()?,
            line,
            why,
        }),
    }
}
