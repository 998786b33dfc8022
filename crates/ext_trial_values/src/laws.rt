// The laws of trees of any stamp: functions that do nothing, and whose contracts are theorems. Each is called once, at a concrete type.
use ext_tree::Stamp;

/// Calls them.
pub(crate) fn call_laws() {
    ext_tree::laws::every_prefix_is_a_directory::<Stamp>();
    ext_layer::laws::one_layered_tree::<Stamp>();
    ext_layer::laws::entries_are_of_layers::<Stamp>();
    ext_layer::laws::nothing_hides::<Stamp>();
    ext_layer::laws::a_lower_equal_layer_shows_nothing::<Stamp>();
    ext_walk::laws::ends_at_no_link::<Stamp>();
    ext_walk::laws::one_end::<Stamp>();
    ext_configs::laws::one_component_list::<Stamp>();
    ext_installed::laws::one_installed::<Stamp>();
    of_hosts();
}

fn of_hosts() {
    ext_host::laws::entries_are_of_sources::<Stamp>();
    ext_changes::laws::one_list::<Stamp, Stamp>();
    ext_changes::laws::none_of_equal::<Stamp, Stamp>();
    ext_changes::laws::each_differs::<Stamp, Stamp>();
    ext_changes::laws::turned_the_other_way::<Stamp, Stamp>();
    ext_changes::laws::below_of_all::<Stamp, Stamp>();
    ext_changes::laws::one_list_of_text::<Stamp, Stamp>();
    ext_find::laws::an_entry_gives_one_item::<Stamp>();
    ext_find::laws::there_is_one_found_list::<Stamp>();
    ext_units::laws::there_is_one_choice_of_units::<Stamp>();
    ext_units::laws::there_is_one_list_of_units::<Stamp>();
    ext_units::laws::units_ascend::<Stamp>();
    ext_units::laws::each_unit_has_a_prefix::<Stamp>();
    ext_units::laws::the_first_entry_decides::<Stamp>();
}
