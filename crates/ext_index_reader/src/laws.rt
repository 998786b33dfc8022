//! What follows from the definitions of reading alone.
ghost use Rattle.ext_index_reader.specs.Laws.{ListedIsSaid, NoStop, OneReading, OneStop, SaidIsListed};

/// Bytes whose lines run through say one thing and stop nowhere. Others stop at one line at most.
pub fn lines_are_read_in_one_way()
    ensures says { OneReading }
    ensures stops_nowhere { NoStop }
    ensures stops_once { OneStop }
{}

/// What lines say that run through is a host that an index lists, and they are the lines of its text.
pub fn what_is_said_is_listed()
    ensures { SaidIsListed }
{}

/// The lines of the text of a host that an index lists run through and say that host, where the text is not longer than a count
/// on a line can tell.
pub fn what_is_listed_is_said()
    ensures { ListedIsSaid }
{}
