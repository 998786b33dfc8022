//! Laws of unit files, each the contract of a function that does nothing: what holds of every file.
ghost use Rattle.ext_ini.specs.Laws.{FirstRefused, LinesAreWholes, RefusalsName, WholesAscend};

/// To read a file line by line is to read its whole lines, one after another.
pub fn lines_are_read_as_whole_lines()
    ensures { LinesAreWholes }
{}

/// The whole lines of a file stand in the order of their numbers. Each has the number of a line of the file, and so has its
/// first line that is no text, which comes before the next whole line.
pub fn whole_lines_ascend()
    ensures { WholesAscend }
{}

/// A file is refused exactly where some whole line is, and for the first such one. A whole line that is refused is told by
/// the first of its lines that is no text, or else by its first line. As whole lines ascend, this is the first faulty line.
pub fn the_first_refused_whole_line_is_the_fault()
    ensures first { FirstRefused }
    ensures named { RefusalsName }
{}
