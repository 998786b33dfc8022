//! Laws of patterns, each the contract of a function that does nothing.
ghost use Rattle.ext_pattern.specs.First.{FirstMatchHasVersion, OneFirstMatch};
ghost use Rattle.ext_pattern.specs.Laws.{FaultIsFirst, FilledIsName, MatchHasVersion, MatchIsFilled, OneMatch, ReadIsWritten, WrittenIsRead};

/// A text writes one pattern at most, and a pattern is written by one text: what is read is written so, and what is written
/// is read.
pub fn a_pattern_has_its_own_text()
    ensures text { ReadIsWritten }
    ensures pattern { WrittenIsRead }
{}

/// The fault of a text that is no pattern is its first from the left: what stands before it is sound, and there it has the fault
/// that is told.
pub fn a_fault_is_the_first()
    ensures { FaultIsFirst }
{}

/// A name matches a pattern in one way at most, and what it has as the version is one.
pub fn a_name_matches_once()
    ensures once { OneMatch }
    ensures version { MatchHasVersion }
{}

/// A name matches the first pattern that it matches in one way at most, and what it has as the version is one.
pub fn one_first_match()
    ensures once { OneFirstMatch }
    ensures version { FirstMatchHasVersion }
{}

/// A pattern filled is a name, and a name that matches is the pattern filled with what was caught. The converse of the latter
/// is no law: a name that a pattern makes need not match it.
pub fn names_are_filled_patterns()
    ensures name { FilledIsName }
    ensures filled { MatchIsFilled }
{}
