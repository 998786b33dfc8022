// The versions that can be taken over.
ghost use Rattle.std.specs.Prelude.{◌≡◌, ◌<◌, ◌↔◌, length, IfOk, IsTrue};
ghost use Rattle.ext_available.specs.Available.{AreAvailable, AreThoseOf, IsAvailable, IsNotBelow};
ghost use Rattle.ext_available.specs.Offers.{offered_versions};

use crate::offer::{Offer, Offers};
use ext_lines::{OutOfMemory, allocated};
use ext_transfer::Transfer;
use ext_vers::{Version, compare};
use ext_versions::Versions;
use std::alloc::Global;

/// The versions that each source offers, and that no transfer's least version is above, by the order of versions. There is a
/// transfer at least, and the offers are those of the transfers' sources. A version counts by its bytes: `1.0` and `1.00` are two,
/// and a limit of one of them lets both through. After sysupdate.d(5), `MinVersion=` of `[Transfer]`; that each source has to offer
/// a version is from there too.
///
/// Each version of the first source is searched in the others by halves.
///
/// # Errors
/// `OutOfMemory` alone.
pub fn available(
    alloc: Global,
    transfers: &[Transfer],
    offers: &[Offers],
) -> Result<Versions, OutOfMemory>
    requires some { 0 < length transfers.now }
    requires each { length offers.now ≡ length transfers.now }
    ensures { IfOk result (AreAvailable transfers.now offers.now) }
{
    let others = offers.split_at(1).1;
    let found = available_of(alloc, transfers, others, offers[0].as_slice())?;
    Ok(Versions::of(found))
}

// The versions of some offers that are available.
fn available_of(
    alloc: Global,
    transfers: &[Transfer],
    offers: &[Offers],
    some: &[Offer],
) -> Result<Vec<Version>, OutOfMemory>
    ensures { IfOk result (λ found. AreThoseOf transfers.now offers.now (offered_versions some.now) found.items) }
{
    let mut found = Vec::new(alloc);
    for offer in some {
        if is_available(transfers, offers, offer.version.bytes()) {
            allocated(found.push(offer.version.copy()?))?;
        }
    }
    Ok(found)
}

// Whether each source offers a version, and no transfer has a greater least version.
fn is_available(transfers: &[Transfer], offers: &[Offers], version: &[u8]) -> bool
    ensures { IsTrue result ↔ IsAvailable transfers.now offers.now version.now }
{
    transfers
        .iter()
        .all(|transfer| is_not_below(transfer, version))
        && offers.iter().all(|each| each.find(version).is_some())
}

// Whether a transfer has no least version, or one that is not above this version.
fn is_not_below(transfer: &Transfer, version: &[u8]) -> bool
    ensures { IsTrue result ↔ IsNotBelow version.now transfer.now }
{
    match &transfer.min {
        Some(least) => !compare(least.bytes(), version).is_gt(),
        None => true,
    }
}
