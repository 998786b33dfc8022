//! Laws of what is told of a refresh, each the contract of a function that does nothing.
ghost use Rattle.ext_explain.specs.Laws.{FirstLineShows, FirstLineShowsOutside, OneListOfChanges, OneListOfLines};

use ext_view::laws::there_is_one_survey;

/// The first line of an explanation tells what the refreshed host shows at the path: its entry, an opaque directory as a
/// directory, and nothing where that is a whiteout, where the line tells what covers the path, or where there is no line. So it
/// is at and below the hierarchies of the class, and elsewhere where no other class is merged.
pub fn the_first_line_tells_what_shows()
    ensures within { FirstLineShows }
    ensures outside { FirstLineShowsOutside }
{
    there_is_one_survey();
}

/// Where it is told of each file what it has, a path has one list of lines, and a refresh one list of changes.
pub fn there_is_one_answer()
    ensures lines { OneListOfLines }
    ensures changes { OneListOfChanges }
{
    there_is_one_survey();
}
