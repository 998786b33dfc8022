// The resources of a version, for all transfers that have no instance of it.
ghost use Rattle.std.specs.Prelude.{◌≡◌, ◌<◌, length, Err, IfErr, IfOk, Ok, Some};
ghost use Rattle.std.specs.List.{AllByRecursion, AllZip};
ghost use Rattle.ext_text.specs.Digest.{IsDigest};
ghost use Rattle.ext_text.specs.Name.{IsName};
ghost use Rattle.ext_depot.specs.Depot.{IsKept};
ghost use Rattle.ext_vers.specs.Version.{IsVersion};
ghost use Rattle.ext_transfer.specs.Bounds.{KeepsBounds};
ghost use Rattle.ext_available.specs.Available.{IsOffered};
ghost use Rattle.ext_available.specs.Offers.{find_offer};
ghost use Rattle.ext_available.specs.Resource.{listed_name};
ghost use Rattle.ext_resources.specs.Resources.{AreResources, IsResource};
ghost use Rattle.ext_resources.specs.Told.{TellsResources, IfToldReason, IsOfferTold, TellsResource, ResourceCause};
ghost use Rattle.ext_resources.specs.Wanted.{AreListed};

use crate::content::content_at;
use crate::lacking::lacking;
use crate::naming::{listed_path, resource_path, target_name};
use crate::resource::Resource;
use crate::resource_err::ResourceErr;
use ext_available::{Offer, Offers};
use ext_depot::Depot;
use ext_installed::Instance;
use ext_lines::allocated;
use ext_transfer::Transfer;
use std::alloc::Global;

/// What an update to a version takes from the depot: for each transfer that has no instance of the version, in the order of the
/// transfers, the resource that its source offers. Each source offers the version, and the offers are those of the transfers'
/// sources, as [`offers`](ext_available::offers) gives them. The instances may stand in any order; a version is told by its bytes.
///
/// A file of a source stands at its name in the source's path. Its size is what the depot tells, its digest the listed one. A
/// directory's tree is read from the text `NAME.tree` there, of which the digest is compared with the listed one; its files stand
/// below `NAME`. No file's bytes are read here.
///
/// The work grows with the instances, with the transfers times the logarithm of the offers, and with the texts.
///
/// # Errors
/// For the first transfer that has no instance and whose resource can't be taken, the first of these. Nothing of later transfers
/// is then looked at.
///
/// - `NotInDepot` where the depot has no such file or text, with its path.
/// - `FileTooLarge` where a file has more than 1,073,741,824 bytes, with its path.
/// - `TextTooLong` where a text has more than 67,108,864 bytes, with its path.
/// - `Mismatch` where a text has another digest than the listed one, with its path and both stamps.
/// - `BadTree` with the path of a text and its first faulty line, counted from 1.
///
/// `Fault` comes only where the depot counted a fault, and `OutOfMemory` may come at any time.
pub fn resources<P: Depot>(
    alloc: Global,
    transfers: &[Transfer],
    offers: &[Offers],
    items: &[Instance],
    version: &[u8],
    depot: &mut P,
) -> Result<Vec<Resource>, ResourceErr>
    requires bounds { AllByRecursion KeepsBounds transfers.now }
    requires listed { AllZip AreListed transfers.now offers.now }
    requires offered { AllByRecursion (IsOffered version.now) offers.now }
    ensures gives { IfOk result (λ found.
        TellsResources (P.state depot.old).contents transfers.now offers.now items.now version.now (Ok found.items)) }
    ensures refused { IfErr result (IfToldReason (λ e.
        TellsResources (P.state depot.old).contents transfers.now offers.now items.now version.now (Err e))) }
    ensures resources { IfOk result (λ found. AreResources transfers.now offers.now items.now version.now found.items) }
    ensures kept { IsKept (P.state depot.old) (P.state depot.new) }
    ensures cause { IfErr result (ResourceCause (P.state depot.old).faults (P.state depot.new).faults) }
{
    let places = lacking(alloc, transfers.len(), items, version)?;
    let mut found = Vec::new(alloc);
    for place in &places {
        match resource_at(alloc, transfers, offers, *place, version, depot) {
            Ok(resource) => allocated(found.push(resource))?,
            Err(e) => return Err(e),
        }
    }
    Ok(found)
}

// The resource of the version for the transfer at a place.
fn resource_at<P: Depot>(
    alloc: Global,
    transfers: &[Transfer],
    offers: &[Offers],
    place: usize,
    version: &[u8],
    depot: &mut P,
) -> Result<Resource, ResourceErr>
    requires within { place < length transfers.now }
    requires bounds { AllByRecursion KeepsBounds transfers.now }
    requires listed { AllZip AreListed transfers.now offers.now }
    requires offered { AllByRecursion (IsOffered version.now) offers.now }
    ensures gives { IfOk result (λ resource.
        TellsResource (P.state depot.old).contents transfers.now offers.now version.now place (Ok resource)) }
    ensures refused { IfErr result (IfToldReason (λ e.
        TellsResource (P.state depot.old).contents transfers.now offers.now version.now place (Err e))) }
    ensures resource { IfOk result (IsResource transfers.now offers.now version.now) }
    ensures kept { IsKept (P.state depot.old) (P.state depot.new) }
    ensures cause { IfErr result (ResourceCause (P.state depot.old).faults (P.state depot.new).faults) }
{
    let transfer = &transfers[place];
    let offer = offer_of(&offers[place], version);
    resource_of(alloc, place, transfer, offer, version, depot)
}

// The offer of a version.
fn offer_of<'o>(offers: &'o Offers, version: &[u8]) -> &'o Offer
    requires { IsOffered version.now offers.now }
    ensures found { find_offer offers.now version.now ≡ Some result.now }
    ensures digest { IsDigest result.now.digest.0 }
{
    match offers.find(version) {
        None => unreachable!(),
        Some(offer) => {
            // The call says of the digest that it is one.
            let _bytes = offer.digest.bytes();
            offer
        }
    }
}

// The resource of an offer, for the transfer at a place.
fn resource_of<P: Depot>(
    alloc: Global,
    place: usize,
    transfer: &Transfer,
    offer: &Offer,
    version: &[u8],
    depot: &mut P,
) -> Result<Resource, ResourceErr>
    requires bounds { KeepsBounds transfer.now }
    requires version { IsVersion version.now }
    requires listed { IsName (listed_name transfer.now.resources offer.now.name) }
    ensures gives { IfOk result (λ resource.
        IsOfferTold (P.state depot.old).contents place transfer.now offer.now version.now (Ok resource)) }
    ensures refused { IfErr result (IfToldReason (λ e.
        IsOfferTold (P.state depot.old).contents place transfer.now offer.now version.now (Err e))) }
    ensures kept { IsKept (P.state depot.old) (P.state depot.new) }
    ensures cause { IfErr result (ResourceCause (P.state depot.old).faults (P.state depot.new).faults) }
{
    let name = target_name(transfer, version, &offer.digest)?;
    let source = resource_path(transfer, offer)?;
    let listed = listed_path(alloc, transfer, offer)?;
    match content_at(alloc, transfer.resources, listed, &offer.digest, depot) {
        Ok(content) => Ok(Resource {
            transfer: place,
            name,
            source,
            content,
        }),
        Err(e) => Err(e),
    }
}
