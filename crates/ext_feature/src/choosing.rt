// Which transfers are on.
ghost use Rattle.std.specs.Prelude.{◌≡◌};
ghost use Rattle.std.specs.List.{list_all, list_any};
ghost use Rattle.ext_feature.specs.Chosen.{has_on, has_one_on, is_on};
ghost use Rattle.ext_feature.specs.Steps.{AreSorted};

use crate::feature::Feature;
use ext_text::Text;
use ext_transfer::Transfer;

// Whether a transfer is on, by the features of its component: one that it lists is on, if it lists any, and each is on that it
// requires.
pub(crate) fn is_on(features: &[Feature], transfer: &Transfer) -> bool
    ensures { AreSorted features.now → result ≡ is_on features.now transfer.now }
{
    has_one_on(features, transfer.features.as_slice())
        && are_on(features, transfer.requisite.as_slice())
}

// Whether one of the names is that of a feature that is on, or there are none.
fn has_one_on(features: &[Feature], names: &[Text]) -> bool
    ensures { AreSorted features.now → result ≡ has_one_on features.now names.now }
{
    names.is_empty() || names.iter().any(|name| has_on(features, name))
}

// Whether each of the names is that of a feature that is on.
fn are_on(features: &[Feature], names: &[Text]) -> bool
    ensures { AreSorted features.now → result ≡ list_all (has_on features.now) names.now }
{
    names.iter().all(|name| has_on(features, name))
}

// Whether a feature of this name is on; one that isn't there is off. The features are sorted, so halves are looked at.
fn has_on(features: &[Feature], name: &Text) -> bool
    ensures { AreSorted features.now → result ≡ has_on features.now name.now }
{
    match features.binary_search_by(|feature| feature.name.bytes().cmp(name.bytes())) {
        Ok(index) => features[index].on,
        Err(_) => false,
    }
}
