//! Laws of choosing a version and of making room, each the contract of a function that does nothing.
ghost use Rattle.ext_choice.specs.Laws.{ComingInstancesStay, ComingStays, NoMoreGoes, OlderInstancesGo, OldestGoFirst, OneChoice, OneRoom};
ghost use Rattle.ext_choice.specs.Laws.{OneVacuum, ProtectedInstancesStay, ProtectedStay, RoomOrNone};

/// Of ascending available versions there is one choice.
pub fn there_is_one_choice()
    ensures { OneChoice }
{}

/// A protected version never goes, and the coming version doesn't either: no instance of theirs goes.
pub fn protected_and_coming_versions_stay()
    ensures protected { ProtectedStay }
    ensures coming { ComingStays }
    ensures protected_instances { ProtectedInstancesStay }
    ensures coming_instances { ComingInstancesStay }
{}

/// Where a version goes, each older one goes too that has an instance, is not protected and is not the coming one; and as many
/// go as are too many. The same of instances.
pub fn the_oldest_versions_go_first()
    ensures oldest { OldestGoFirst }
    ensures instances { OlderInstancesGo }
    ensures count { NoMoreGoes }
{}

/// There is one list of the versions that go, and one of the paths; and where there is room there is no lack of it.
pub fn what_goes_is_one_list()
    ensures versions { OneRoom }
    ensures lack { RoomOrNone }
    ensures paths { OneVacuum }
{}
