//! Laws of views, each the contract of a function that does nothing.
ghost use Rattle.ext_view.specs.Laws.{MergingKeepsTheBase, NothingHidesInViews, OneSurvey, OneView, RefreshGivesUnmergeThenMerge, RefreshIsUnmergeThenMerge};
ghost use Rattle.ext_view.specs.Laws.{UnmergeThenMergeIsRefresh, UnmergeUndoesMerge};

use ext_find::laws::there_is_one_found_list;
use ext_host::Held;
use ext_match::one_verdict;
use ext_release::{a_file_has_a_release_or_a_faulty_line, a_file_has_one_release};

/// Refreshing is unmerging and then merging: what the one gives the other may give, with the same names and in the end the
/// same host.
pub fn refresh_is_unmerge_then_merge()
    ensures refresh { RefreshIsUnmergeThenMerge }
    ensures both { UnmergeThenMergeIsRefresh }
{}

/// Where it is told of each file what it has, what refreshing gives is what unmerging and then merging give: the same names,
/// and the same host.
pub fn refresh_gives_what_unmerge_and_merge_give()
    ensures { RefreshGivesUnmergeThenMerge }
{
    there_is_one_survey();
}

/// A host has one survey, where it is told of each file what it has.
pub fn there_is_one_survey()
    ensures { OneSurvey }
{
    there_is_one_found_list::<Held>();
    a_file_has_one_release();
    a_file_has_a_release_or_a_faulty_line();
    one_verdict();
}

/// Chosen images have one view.
pub fn there_is_one_view()
    ensures { OneView }
{}

/// At the hierarchies of a view no whiteout and no opaque directory is seen.
pub fn nothing_hides_in_views()
    ensures { NothingHidesInViews }
{}

/// Merging and unmerging keep the base of a host.
pub fn merging_keeps_the_base()
    ensures { MergingKeepsTheBase }
{}

/// Unmerging a merged host gives the host that unmerging would give of the host before.
pub fn unmerge_undoes_merge()
    ensures { UnmergeUndoesMerge }
{}
