//! Laws of what updates and making room want, each the contract of a function that does nothing.
ghost use Rattle.ext_update.specs.Laws.{ManifestsAreKept, OneUpdate, OneVacuumPlan, OtherPartsStay, ResourcesStand};
ghost use Rattle.ext_update.specs.Laws.{UntouchedStand, UpdatesKeepProtected, UpdatesWrite, VacuumsKeepProtected, VacuumsRemove};

use ext_resources::laws::one_told;

/// Of ascending available versions, where the depot tells its files, an update wants one thing, and so does making room: never two
/// hosts or two refusals, nor one of each. So [`plan_update`](crate::plan_update) and [`plan_vacuum`](crate::plan_vacuum) have one
/// answer, but where memory runs out or the depot fails.
pub fn one_thing_is_wanted()
    ensures update { OneUpdate }
    ensures vacuum { OneVacuumPlan }
{
    one_told();
}

/// What changes a host, by what it writes and removes: an update the resources that the depot tells of its version, with the
/// links, and the instances that have to go; making room these alone. The other laws speak of what is written and removed.
pub fn a_change_is_what_is_written_and_removed()
    ensures update { UpdatesWrite }
    ensures vacuum { VacuumsRemove }
{}

/// An instance of a version that its transfer protects stands as before at and below its path, whatever an update writes and
/// removes, and wherever room is made.
pub fn a_protected_instance_stands()
    ensures updates { UpdatesKeepProtected }
    ensures vacuums { VacuumsKeepProtected }
{}

/// At and below a path that is related to nothing that is written or removed, what is seen stands as before, and nothing else of the
/// host changes but its manifests.
pub fn what_is_not_touched_stands()
    ensures seen { UntouchedStand }
    ensures others { OtherPartsStay }
{}

/// Each resource that is written stands as it was put, and leaves a manifest in the coming host, of which the items are its files
/// with their digests.
pub fn what_is_written_has_a_manifest()
    ensures { ResourcesStand }
{}

/// An update, or making room, is a change of a host that keeps each manifest which is related to nothing that it writes or
/// removes, and those of its resources.
pub fn other_manifests_are_kept()
    ensures { ManifestsAreKept }
{}
