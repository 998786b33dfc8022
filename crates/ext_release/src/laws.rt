//! Laws of release files, each the contract of a function that does nothing: what holds of every file and of every text
//! in quotes.
ghost use Rattle.ext_release.specs.Laws.{NoFaultInRelease, OneFault, OneRelease, ReleaseOrFault};
ghost use Rattle.ext_release.specs.Quoting.{DoubleQuotesAreReadBack, SingleQuotesAreReadBack};

/// A file has one release: two maps that both are its release are equal.
pub fn a_file_has_one_release()
    ensures { OneRelease }
{}

/// A file has a release or a first faulty line, never both, and no second line that is its first faulty one.
pub fn a_file_has_a_release_or_a_faulty_line()
    ensures either { ReleaseOrFault }
    ensures not_both { NoFaultInRelease }
    ensures one_fault { OneFault }
{}

/// What is written in quotes is read back as the value: in double quotes every text that can stand on a line, with a
/// backslash before each byte that is special there, and in single quotes every such text without one.
pub fn quoted_texts_are_read_back()
    ensures double { DoubleQuotesAreReadBack }
    ensures single { SingleQuotesAreReadBack }
{}
