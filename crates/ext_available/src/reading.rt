// The manifests of the sources, read from the depot.
ghost use Rattle.std.specs.Prelude.{◌≡◌, ◌≢◌, Err, IfErr, IfOk, Ok};
ghost use Rattle.std.specs.List.{AllByRecursion};
ghost use Rattle.ext_depot.specs.Depot.{IsKept};
ghost use Rattle.ext_depot.specs.declared.depot_text.DepotText.TheVariants.{Whole};
ghost use Rattle.ext_transfer.specs.Bounds.{KeepsBounds};
ghost use Rattle.ext_available.specs.Reading.{AreTold, IfTold, IsTold, OffersCause, TellsOffers, manifest_path};
ghost use Rattle.ext_available.specs.declared.offers_err.OffersErr.TheVariants.{Fault};

use crate::least::offers_by;
use crate::offer::Offers;
use crate::offers_err::OffersErr;
use ext_depot::{Depot, DepotText, read_depot_text};
use ext_lines::allocated;
use ext_sums::{SumsErr, read_sums};
use ext_text::{OutOfMemory, Path, PathErr, Text};
use ext_transfer::Transfer;
use std::alloc::Global;

/// The name of the manifest in the path of a source.
const MANIFEST: &[u8] = b"SHA256SUMS";

/// What the source of each transfer offers, in the order of the transfers. A source is listed by the manifest `SHA256SUMS` in its
/// path in the depot, of at most 67,108,864 bytes. It has a version by a name where the first of its patterns that matches the name
/// catches the version, and no digest but the listed one, and where the name that the first of the target's patterns makes of
/// version and digest is read back as the version. A directory is listed by the text of its tree, `NAME.tree`. Of two names of one
/// version the smaller one by bytes counts.
///
/// The transfers are read one after another, and the first that fails decides. The patterns are sysupdate.d(5)'s; the manifest in
/// the depot, reading back and the smaller name are this project's own choice.
///
/// # Errors
/// - `NotInDepot` with the path at which a manifest was looked for.
/// - `TooLong` where a manifest has more than 67,108,864 bytes.
/// - `BadManifest` with the path of a manifest and its first faulty line, counted from 1.
/// - `Fault` only where the depot counted a fault.
/// - `OutOfMemory`.
pub fn offers<P: Depot>(
    alloc: Global,
    transfers: &[Transfer],
    depot: &mut P,
) -> Result<Vec<Offers>, OffersErr>
    requires { AllByRecursion KeepsBounds transfers.now }
    ensures gives { IfOk result (λ offers. AreTold (P.state depot.old).contents transfers.now (Ok offers.items)) }
    ensures refused { IfErr result (IfTold (λ e. AreTold (P.state depot.old).contents transfers.now (Err e))) }
    ensures kept { IsKept (P.state depot.old) (P.state depot.new) }
    ensures cause { IfErr result (OffersCause (P.state depot.old).faults (P.state depot.new).faults) }
{
    let mut all = allocated(Vec::with_capacity(alloc, transfers.len()))?;
    for transfer in transfers {
        match offers_in(alloc, transfer, depot) {
            Ok(offers) => allocated(all.push(offers))?,
            Err(e) => return Err(e),
        }
    }
    Ok(all)
}

// What the source of one transfer offers.
fn offers_in<P: Depot>(
    alloc: Global,
    transfer: &Transfer,
    depot: &mut P,
) -> Result<Offers, OffersErr>
    requires { KeepsBounds transfer.now }
    ensures gives { IfOk result (λ offers. IsTold (P.state depot.old).contents transfer.now (Ok offers)) }
    ensures refused { IfErr result (IfTold (λ e. IsTold (P.state depot.old).contents transfer.now (Err e))) }
    ensures kept { IsKept (P.state depot.old) (P.state depot.new) }
    ensures cause { IfErr result (OffersCause (P.state depot.old).faults (P.state depot.new).faults) }
{
    let path = manifest_path(transfer)?;
    let found = read_depot_text(alloc, depot, &path)?;
    offers_told(alloc, transfer, path, found)
}

// The path of a source's manifest.
fn manifest_path(transfer: &Transfer) -> Result<Path, OutOfMemory>
    requires { KeepsBounds transfer.now }
    ensures { IfOk result (λ path. path ≡ manifest_path transfer.now) }
{
    match transfer.source.path.child_of(MANIFEST) {
        Ok(path) => Ok(path),
        Err(PathErr::OutOfMemory) => Err(OutOfMemory),
        Err(PathErr::TooLong) => unreachable!(),
        Err(PathErr::TooDeep) => unreachable!(),
        Err(PathErr::BadName) => unreachable!(),
    }
}

// What a text that was found at that path tells.
fn offers_told(
    alloc: Global,
    transfer: &Transfer,
    path: Path,
    found: DepotText,
) -> Result<Offers, OffersErr>
    requires { path ≡ manifest_path transfer.now }
    ensures gives { IfOk result (λ offers. TellsOffers transfer.now found (Ok offers)) }
    ensures refused { IfErr result (IfTold (λ e. TellsOffers transfer.now found (Err e))) }
    ensures faultless { IfErr result (λ e. e ≢ Fault) }
{
    match found {
        DepotText::Absent => Err(OffersErr::NotInDepot { path }),
        DepotText::TooLong => Err(OffersErr::TooLong),
        DepotText::Whole(text) => offers_listed(alloc, transfer, path, &text),
    }
}

// What a manifest tells.
fn offers_listed(
    alloc: Global,
    transfer: &Transfer,
    path: Path,
    text: &Text,
) -> Result<Offers, OffersErr>
    requires { path ≡ manifest_path transfer.now }
    ensures gives { IfOk result (λ offers. TellsOffers transfer.now (Whole text.now) (Ok offers)) }
    ensures refused { IfErr result (IfTold (λ e. TellsOffers transfer.now (Whole text.now) (Err e))) }
    ensures faultless { IfErr result (λ e. e ≢ Fault) }
{
    match read_sums(alloc, text.bytes()) {
        Ok(sums) => Ok(offers_by(alloc, transfer, &sums)?),
        Err(SumsErr::BadManifest { line }) => Err(OffersErr::BadManifest { path, line }),
        Err(SumsErr::OutOfMemory) => Err(OffersErr::OutOfMemory),
    }
}
