//! Laws of ascending lists of versions, each the contract of a function that does nothing.
ghost use Rattle.ext_versions.specs.Laws.{HasWhatItContains, OneCommon, OneList, OneOfVersions};

/// Two ascending lists with the same versions are equal. So versions have one ascending list, and lists have one of the
/// versions that they share.
pub fn an_ascending_list_is_one()
    ensures one { OneList }
    ensures versions { OneOfVersions }
    ensures common { OneCommon }
{}

/// A list has a version exactly where it is at some place of it.
pub fn a_list_has_what_it_contains()
    ensures { HasWhatItContains }
{}
