ghost use Rattle.std.specs.Prelude.{◌≡◌, length, IfOk};
ghost use Rattle.std.specs.Option.{option_copied};
ghost use Rattle.ext_available.specs.Offers.{AreAscending, offer_comes_before, find_offer, first_offer, offered_versions, offers_from};

use ext_lines::{OutOfMemory, allocated};
use ext_text::{Digest, Name};
use ext_vers::{Version, order};
use ext_versions::Versions;
use std::alloc::Global;
use std::marker::Model;

/// A resource that a source offers, by a manifest.
#[derive(Drop)]
pub struct Offer {
    /// The version that the source's patterns read in the name.
    pub version: Version,
    /// The name of the resource. A directory of this name is listed by the text of its tree, which is named `NAME.tree`.
    pub name: Name,
    /// The digest that is listed: that of the file, or of the text of the directory's tree.
    pub digest: Digest,
}

/// What a source offers: each version once, in the order of versions, equal ones by their bytes. Contracts see it as the list of
/// the offers.
#[derive(Drop)]
pub struct Offers {
    items: Vec<Offer>,
}

impl Model for Offers {
    ghost use Rattle.std.specs.Prelude.{List};
    ghost use Rattle.ext_available.specs.declared.offer.Offer.{Offer};
    ghost use Rattle.ext_available.specs.Offers.{AreAscending};

    ghost Value = { List Offer };

    ghost view = { λ o. o.items.items };

    ghost invariant = { λ o. AreAscending o.items.items };
}

impl Offers {
    // These offers, which ascend.
    pub(crate) fn of(items: Vec<Offer>) -> Offers
        requires { AreAscending items.items }
        ensures { result ≡ items.items }
    {
        Offers { items }
    }

    /// The offers, the least version first.
    pub fn as_slice(&self) -> &[Offer]
        ensures same { result.now ≡ self.now }
        ensures ascending { AreAscending self.now }
    {
        self.items.as_slice()
    }

    /// The offer of the version of these bytes; `None` exactly where the source does not offer it. It takes one search by halves
    /// and no memory.
    pub fn find(&self, version: &[u8]) -> Option<&Offer>
        ensures { option_copied result ≡ find_offer self.now version.now }
    {
        first_offer(offers_from(self.as_slice(), version), version)
    }

    /// The versions that are offered.
    ///
    /// # Errors
    /// `OutOfMemory` alone.
    pub fn versions(&self, alloc: Global) -> Result<Versions, OutOfMemory>
        ensures { IfOk result (λ versions. versions ≡ offered_versions self.now) }
    {
        let versions = versions_of(alloc, self.as_slice())?;
        Ok(Versions::of(versions))
    }

    /// How many versions are offered.
    pub fn len(&self) -> usize
        ensures { result ≡ length self.now }
    {
        self.items.len()
    }
}

// The offers from the first on whose version does not come before this one.
fn offers_from<'a>(offers: &'a [Offer], version: &[u8]) -> &'a [Offer]
    requires { AreAscending offers.now }
    ensures { result.now ≡ offers_from version.now offers.now }
{
    let count = offers.partition_point(|offer| offer_comes_before(offer, version));
    offers.split_at(count).1
}

// The first of the offers, where that has the version.
fn first_offer<'a>(offers: &'a [Offer], version: &[u8]) -> Option<&'a Offer>
    ensures { option_copied result ≡ first_offer version.now offers.now }
{
    match offers.first() {
        Some(first) if first.version.bytes() == version => Some(first),
        _ => None,
    }
}

// Whether the version of an offer comes before this one.
fn offer_comes_before(offer: &Offer, version: &[u8]) -> bool
    ensures { result ≡ offer_comes_before version.now offer.now }
{
    order(offer.version.bytes(), version).is_lt()
}

// The versions of offers, in their order.
fn versions_of(alloc: Global, offers: &[Offer]) -> Result<Vec<Version>, OutOfMemory>
    ensures { IfOk result (λ versions. versions.items ≡ offered_versions offers.now) }
{
    let mut versions = allocated(Vec::with_capacity(alloc, offers.len()))?;
    for offer in offers {
        allocated(versions.push(offer.version.copy()?))?;
    }
    Ok(versions)
}
