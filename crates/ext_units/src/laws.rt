//! Laws of portable services and their units, each the contract of a function that does nothing.
ghost use Rattle.ext_units.specs.Laws.{FirstEntryDecides, FirstEntryHides, OneChoice, OneImage, OneInspect, OneUnits};
ghost use Rattle.ext_units.specs.Laws.{UnitsAscend, UnitsHavePrefixes};

use ext_find::laws::there_is_one_found_list;
use ext_host::Held;
use ext_release::{a_file_has_a_release_or_a_faulty_line, a_file_has_one_release};

/// Where a shelf gives one text of each file, there is one image of a name or at a path, or one thing that is wrong first.
pub fn there_is_one_image()
    ensures { OneImage }
{
    there_is_one_found_list::<Held>();
    a_file_has_one_release();
    a_file_has_a_release_or_a_faulty_line();
}

/// An image has one choice of units in a tree, or one reason why it has none.
pub fn there_is_one_choice_of_units<C>()
    ensures { OneChoice C }
{}

/// Where a shelf gives one text of each file, inspecting a service tells one thing.
pub fn there_is_one_inspection()
    ensures { OneInspect }
{
    there_is_one_image();
    there_is_one_choice_of_units::<Held>();
}

/// A tree has one list of units of some prefixes.
pub fn there_is_one_list_of_units<C>()
    ensures { OneUnits C }
{}

/// Units ascend by the bytes of their names, so that no name comes twice.
pub fn units_ascend<C>()
    ensures { UnitsAscend C }
{}

/// Each unit has one of the prefixes.
pub fn each_unit_has_a_prefix<C>()
    ensures { UnitsHavePrefixes C }
{}

/// Of each name the first entry decides: a unit leads where it leads, and where it leads to no file there is no unit.
pub fn the_first_entry_decides<C>()
    ensures decides { FirstEntryDecides C }
    ensures hides { FirstEntryHides C }
{}
