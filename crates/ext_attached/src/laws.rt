//! Laws of what is attached, each the contract of a function that does nothing.
ghost use Rattle.ext_attached.specs.Laws.{DetachedIsPlanned, OneDetach, OneLeast, OthersStayAttached, WithoutAgain};

/// A valid host without some of its attachments is valid and drawn from it.
pub fn a_detached_host_is_planned()
    ensures { DetachedIsPlanned }
{}

/// Of some paths there is one least that passes a test, or none.
pub fn there_is_one_least_path()
    ensures { OneLeast }
{}

/// The state of an image of another name stays where an attachment goes, and the one that goes is detached.
pub fn other_states_stay()
    ensures { OthersStayAttached }
{}

/// Where the attachments of an image are gone, taking them away again changes nothing.
pub fn taking_away_twice_is_taking_away_once()
    ensures { WithoutAgain }
{}

/// One thing comes of detaching an image.
pub fn there_is_one_detachment()
    ensures { OneDetach }
{}
