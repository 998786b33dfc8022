//! Laws of features and of transfers that are on, each the contract of a function that does nothing.
ghost use Rattle.ext_feature.specs.Laws.{AllAreOn, OneActive, OneFeatures, SomeAreOn};

use ext_release::{a_file_has_a_release_or_a_faulty_line, a_file_has_one_release};

/// Where a shelf gives one text of each file, a component has one answer: its features, or the first fault of a file, which is one.
pub fn a_component_has_its_features_or_a_first_fault()
    ensures { OneFeatures }
{}

/// Where a shelf gives one text of each file, a component has one answer: its transfers that are on, or what is wrong first.
pub fn a_component_has_its_transfers_or_a_first_fault()
    ensures { OneActive }
{
    a_file_has_one_release();
    a_file_has_a_release_or_a_faulty_line();
}

/// Where no transfer names a feature, all transfers are on, whatever features there are.
pub fn without_features_all_transfers_are_on()
    ensures all { AllAreOn }
    ensures some { SomeAreOn }
{}
