//! Laws of attaching, each the contract of a function that does nothing.
ghost use Rattle.ext_port.specs.Laws.{AddedAtTops, AttachNotGiven, AttachUncounted, AttachesAlike, DetachUndoesAttach};
ghost use Rattle.ext_port.specs.Laws.{InspectNotGiven, InspectUncounted, InspectsAlike, OneAttach, ReattachIsAttach};

use ext_host::Held;
use ext_units::laws::{there_is_one_choice_of_units, there_is_one_image};

/// What attaching adds is all at and below the paths that it records: elsewhere stands what stood, and in the ways to these paths a
/// directory of root's and of mode 755 where nothing did.
pub fn what_is_added_is_recorded()
    ensures { AddedAtTops }
{}

/// What was attached can be detached, which is never refused. Then stands at each path what stood before, but for the directories
/// that were made in the ways to what was added.
pub fn detaching_undoes_attaching()
    ensures { DetachUndoesAttach }
{}

/// To attach anew is to detach and to attach.
pub fn reattaching_is_detaching_and_attaching()
    ensures { ReattachIsAttach }
{}

/// Where a shelf gives one text of each file, one thing comes of attaching an image, or of attaching it anew.
pub fn there_is_one_attachment()
    ensures { OneAttach }
{
    there_is_one_image();
    there_is_one_choice_of_units::<Held>();
}

/// What comes of attaching, and what inspecting tells, rests on what a shelf tells of the files of the host, and on nothing else that it
/// tells.
pub fn they_rest_on_the_files_of_the_host()
    ensures attach { AttachesAlike }
    ensures inspect { InspectsAlike }
{}

/// An error of the shelf is about the release file of the image, which is a file of the host.
pub fn what_is_not_given_is_the_release_file()
    ensures attach { AttachNotGiven }
    ensures inspect { InspectNotGiven }
{}

/// What is no error of the shelf is the same whatever faults are counted.
pub fn faults_matter_for_errors_of_the_shelf_alone()
    ensures attach { AttachUncounted }
    ensures inspect { InspectUncounted }
{}
