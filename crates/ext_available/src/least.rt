// Of each version the offer with the least name.
ghost use Rattle.std.specs.Prelude.{◌≡◌, IfOk};
ghost use Rattle.std.specs.Str.{bytes_eq};
ghost use Rattle.ext_available.specs.Candidates.{AreLeast, offer_cmp};
ghost use Rattle.ext_available.specs.Offers.{AreOffers};

use crate::candidates::candidates;
use crate::offer::{Offer, Offers};
use ext_sums::Sums;
use ext_text::OutOfMemory;
use ext_transfer::Transfer;
use std::alloc::Global;
use std::cmp::Ordering;

// What the source of a transfer offers by its manifest.
pub(crate) fn offers_by(
    alloc: Global,
    transfer: &Transfer,
    sums: &Sums,
) -> Result<Offers, OutOfMemory>
    ensures { IfOk result (AreOffers sums.now transfer.now) }
{
    let found = candidates(alloc, transfer, sums.listed())?;
    Ok(Offers::of(least(found)))
}

// Of each version the offer with the least name, ascending.
fn least(offers: Vec<Offer>) -> Vec<Offer>
    ensures { AreLeast offers.items result.items }
{
    let mut sorted = offers;
    sorted.sort_unstable_by(offer_cmp);
    sorted.dedup_by(|next, last| same_version(next, last));
    sorted
}

// The order of versions, and of one version that of names.
fn offer_cmp(a: &Offer, b: &Offer) -> Ordering
    ensures { result ≡ offer_cmp a.now b.now }
{
    let by_version = a.version.cmp(&b.version);
    by_version.then_with(|| a.name.bytes().cmp(b.name.bytes()))
}

// Whether two offers are of one version.
fn same_version(next: &Offer, last: &Offer) -> bool
    ensures { result ≡ bytes_eq next.now.version last.now.version }
{
    next.version.bytes() == last.version.bytes()
}
