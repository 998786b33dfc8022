//! Laws of published resources, each the contract of a function that does nothing.
ghost use Rattle.ext_published.specs.Laws.{FilesHaveListedStamps, LinesStay, ListingAdds, OneWrongPlace};

/// A manifest that does not list a name lists it in one line more, with its digest. Its old lines stay as they are, and it
/// lists everything else as before.
pub fn a_listing_adds_one_line()
    ensures lines { LinesStay }
    ensures adds { ListingAdds }
{}

/// Each file that a published directory's text lists stands at its path below the resource, with the stamp that is listed.
pub fn a_published_directory_is_whole()
    ensures { FilesHaveListedStamps }
{}

/// Words that ask nothing have one first fault.
pub fn words_have_one_first_fault()
    ensures { OneWrongPlace }
{}
