//! Laws of the store's names and paths, each the contract of a function that does nothing.
ghost use Rattle.ext_store_files.specs.Rows.{NameOfOneGeneration, LeftOversAre, RowsOfPaths, RowsOfNames, RowsOfLeftOvers};

/// A name is that of one generation, or of none.
pub fn a_name_is_of_one_generation()
    ensures { NameOfOneGeneration }
{}

/// The left-overs are `next` and the generations that are not needed, and nothing else.
pub fn left_overs()
    ensures { LeftOversAre }
{}

/// Paths, names and left-overs that were worked out by hand.
pub fn worked_rows()
    ensures paths { RowsOfPaths }
    ensures names { RowsOfNames }
    ensures left_overs { RowsOfLeftOvers }
{}
