//! Laws of attaching with extensions, each the contract of a function that does nothing.
ghost use Rattle.ext_portext.specs.Laws.{ExtendedAlike, ExtendedNotGiven, ExtendedUncounted, OneExtendedAttach};
ghost use Rattle.ext_portext.specs.Laws.{OneUnitTree, WithoutExtensionsIsAttach};

use ext_find::laws::there_is_one_found_list;
use ext_host::Held;
use ext_match::one_verdict;
use ext_release::{a_file_has_a_release_or_a_faulty_line, a_file_has_one_release};
use ext_units::laws::{there_is_one_choice_of_units, there_is_one_image};

/// What is attached with no extensions, or attached anew, is what [`attach_image`](ext_port::attach_image) gives.
pub fn without_extensions_it_is_attaching()
    ensures { WithoutExtensionsIsAttach }
{}

/// An image and its extensions have one tree in which units are looked for.
pub fn there_is_one_unit_tree()
    ensures { OneUnitTree }
{}

/// Where a shelf gives one text of each file, one thing comes of attaching an image with extensions, or of attaching it anew.
pub fn there_is_one_extended_attachment()
    ensures { OneExtendedAttach }
{
    there_is_one_found_list::<Held>();
    a_file_has_one_release();
    a_file_has_a_release_or_a_faulty_line();
    one_verdict();
    there_is_one_image();
    there_is_one_choice_of_units::<Held>();
}

/// What comes of it rests on what a shelf tells of the files of the host, and on nothing else that it tells.
pub fn it_rests_on_the_files_of_the_host()
    ensures { ExtendedAlike }
{}

/// An error of the shelf is about the release file of the image or of an extension, which is a file of the host.
pub fn what_is_not_given_is_a_release_file()
    ensures { ExtendedNotGiven }
{}

/// What is no error of the shelf is the same whatever faults are counted.
pub fn faults_matter_for_errors_of_the_shelf_alone()
    ensures { ExtendedUncounted }
{}
