//! Laws of what sources offer, each the contract of a function that does nothing.
ghost use Rattle.ext_available.specs.Laws.{HasOne, OfferIsVersion, OneAvailable, OneOffers, OneTold};

use ext_sums::{a_text_has_a_manifest_or_a_faulty_line, a_text_has_one_manifest};
use ext_versions::laws::an_ascending_list_is_one;

/// A source has a version by one name and one digest, and so offers one list by a manifest. Where the depot tells its files, the
/// manifests of transfers tell one thing: the offers of each, or the first error.
pub fn one_offers()
    ensures has { HasOne }
    ensures offers { OneOffers }
    ensures told { OneTold }
{
    a_text_has_a_manifest_or_a_faulty_line();
    a_text_has_one_manifest();
}

/// There is one list of the versions that are available.
pub fn one_available()
    ensures { OneAvailable }
{
    an_ascending_list_is_one();
}

/// What is offered is a version, by a name.
pub fn an_offer_is_of_a_version()
    ensures { OfferIsVersion }
{}
