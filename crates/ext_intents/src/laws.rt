//! The law of what commands want, the contract of a function that does nothing.
ghost use Rattle.ext_intents.specs.Laws.{OneIntent};

use ext_available::laws::{one_available, one_offers};
use ext_choice::laws::there_is_one_choice;
use ext_configs::laws::one_component_list;
use ext_explain::laws::there_is_one_answer;
use ext_feature::laws::{
    a_component_has_its_features_or_a_first_fault, a_component_has_its_transfers_or_a_first_fault,
};
use ext_find::laws::there_is_one_found_list;
use ext_host::Held;
use ext_installed::laws::one_installed;
use ext_port::laws::there_is_one_attachment;
use ext_portext::laws::there_is_one_extended_attachment;
use ext_release::a_file_has_a_release_or_a_faulty_line;
use ext_tree::laws::{first_fault_of_text, one_tree_of_text};
use ext_units::laws::there_is_one_inspection;
use ext_update::laws::one_thing_is_wanted;
use ext_versions::laws::an_ascending_list_is_one;
use ext_view::laws::there_is_one_survey;

/// A command wants one thing of a host and of what the depot has, where it is told what their files have: never two hosts,
/// two answers or two refusals, nor one of each.
pub fn a_command_wants_one_thing()
    ensures { OneIntent }
{
    there_is_one_survey();
    there_is_one_answer();
    a_file_has_a_release_or_a_faulty_line();
    one_tree_of_text();
    first_fault_of_text();
    a_component_has_its_features_or_a_first_fault();
    a_component_has_its_transfers_or_a_first_fault();
    one_offers();
    one_available();
    one_installed::<Held>();
    an_ascending_list_is_one();
    there_is_one_choice();
    one_component_list::<Held>();
    one_thing_is_wanted();
    there_is_one_found_list::<Held>();
    there_is_one_inspection();
    there_is_one_attachment();
    there_is_one_extended_attachment();
}
