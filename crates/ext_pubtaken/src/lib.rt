//! What is published is what other hosts take: laws over what a run publishes and over the commands that read a depot. Each is the
//! contract of a function that does nothing.
#![tactic(auto)]

ghost use Rattle.ext_pubtaken.specs.Taken.{ImportTakes, ImportedFilesStand, PublishedHasText, UpdateTakes};

/// A directory of a valid host has a text, with all below it, so that it can be published.
pub fn what_is_published_has_a_text()
    ensures { PublishedHasText }
{}

/// An import of a published directory reads its tree: it is refused neither as missing, nor as too long, nor as no tree, and where
/// it is done, that tree stands in place of what stood. And each file that it then copies is in the depot, with its listed stamp.
pub fn an_import_takes_what_is_published()
    ensures takes { ImportTakes }
    ensures files { ImportedFilesStand }
{}

/// A transfer that has its source there, and whose patterns read the name of the resource as a version, offers that version, where no
/// other listed resource is one of it.
pub fn an_update_takes_what_is_published()
    ensures { UpdateTakes }
{}
