//! Laws of the machine, each the contract of a function that does nothing: what holds of every command, state and source.
ghost use Rattle.ext_top.specs.Exits.{IsOnTheWay};
ghost use Rattle.ext_top.specs.Laws.{AddedVersionsStay, AfterSomeIsOnTheWay, CompareIsDone, DetachingUndoesAttaching};
ghost use Rattle.ext_top.specs.Laws.{DoneLinesLeaveTheStateAfter, MarksAppendTheirIndex, OnTheWayIsAfterSome, OneOutcome, OneReply};
ghost use Rattle.ext_top.specs.Laws.{ProtectedVersionsStay, RefreshLeavesWhatBothLeave, RollbackGivesWhatWasMarked, UntouchedManifestsStay};
ghost use Rattle.ext_top.specs.Laws.{WhatNoLineTouchesStays};
ghost use Rattle.ext_top.specs.Untouched.{After};

use ext_intents::laws::a_command_wants_one_thing;
use ext_layer::laws::one_layered_tree;
use ext_tree::Stamp;
use ext_tree::laws::{first_fault_of_sequence, one_list_of_sequence};
use ext_view::laws::{merging_keeps_the_base, refresh_gives_what_unmerge_and_merge_give};

/// The reply to a source is one: a command that looks at no store, but for `sample`, has one outcome for the same bytes.
pub fn one_reply()
    ensures { OneReply }
{
    one_list_of_sequence();
    first_fault_of_sequence();
    one_layered_tree::<Stamp>();
}

/// `compare` is never refused: its reply is its line.
pub fn compare_is_done()
    ensures { CompareIsDone }
{}

/// A step has one outcome: of a state for which a store stands, and of a depot that tells its files, a command gives one state
/// and one reply, or has one refusal.
pub fn a_step_has_one_outcome()
    ensures { OneOutcome }
{
    a_command_wants_one_thing();
}

/// A refresh is an unmerge and then a merge: of a state for which a store stands, where each of these steps is done, it
/// leaves the same host, with its trees and names, and gives the same reply.
pub fn a_refresh_is_an_unmerge_and_a_merge()
    ensures { RefreshLeavesWhatBothLeave }
{
    refresh_gives_what_unmerge_and_merge_give();
}

/// The states on the way of lines are those after some of the first of them.
pub fn the_way_is_what_first_lines_leave()
    ensures on_the_way { OnTheWayIsAfterSome }
    ensures after_some { AfterSomeIsOnTheWay }
{}

/// Lines that no stop ends leave a store that durably stands for the state after all of them.
pub fn done_lines_leave_the_state_after()
    ensures { DoneLinesLeaveTheStateAfter }
{}

/// What no line touches stays. From a state for which a store stands, lines none of which touches a path that is at, above or
/// below a path leave the base the same entries at and below that path, and the files there the same bytes, after all of them
/// and on the way. `import-fs` and `remove` touch their path. An update that changes the host touches what it writes and what goes
/// for that, and `vacuum` what goes. Attaching an image touches what it adds, detaching one what was added, and attaching one anew
/// both. A rollback touches every path. No other command touches any: merging, unmerging and refreshing change what is seen over the
/// base.
pub fn what_no_line_touches_stays()
    ensures after { WhatNoLineTouchesStays After }
    ensures on_the_way { WhatNoLineTouchesStays IsOnTheWay }
{
    merging_keeps_the_base();
}

/// Untouched manifests stay. From such a state, where no line touches a path that is at, above or below that of an installed
/// manifest, the manifest stays installed, and the files at and below its path in the base are its items, after all lines and
/// on the way.
pub fn untouched_manifests_stay()
    ensures after { UntouchedManifestsStay After }
    ensures on_the_way { UntouchedManifestsStay IsOnTheWay }
{
    merging_keeps_the_base();
}

/// Every version that an update added, and that no later line touches, equals its manifest. From a state for which a store stands,
/// after any lines, a done `sysupdate update` leaves the state as it is, or replies the version that it added. Each resource of that
/// has a manifest, which lists the files that the depot listed, with their digests. Where no later line touches a path that is at,
/// above or below the resource's, the manifest stays installed, and the files at and below its path in the base are its items,
/// after all of the lines and on the way.
pub fn added_versions_stay()
    ensures after { AddedVersionsStay After }
    ensures on_the_way { AddedVersionsStay IsOnTheWay }
{
    merging_keeps_the_base();
}

/// No update and no `vacuum` removes a protected version. From a state for which a store stands, after any lines, a done one leaves
/// the state as it is, or leaves the same entries in the base, with the same bytes, at and below the path of each instance whose
/// version its transfer protects.
pub fn protected_versions_stay()
    ensures { ProtectedVersionsStay }
{}

/// A rollback gives back what was marked. From a state for which a store stands, after a done `mark` and any lines, a done rollback to
/// that mark leaves a host that has at each path what was seen and what lay under that, with the same bytes, and the same merged
/// names, attachments and manifests. It is refused where the lines dropped the mark.
pub fn a_rollback_gives_what_was_marked()
    ensures { RollbackGivesWhatWasMarked }
{}

/// Detaching undoes attaching. From a state for which a store stands, after a done `portable attach` or `portable reattach` of an image,
/// with extensions or without, detaching it leaves a host that has at each path what was seen before, and in the ways to what was added,
/// where nothing stood, a directory of root's, of mode 755; the same bytes, the same merged names and what lay under these; the
/// attachments that there were; and the manifests but those that are related to what was added. Where it was attached anew, what there
/// was is what there was without the attachments that went. It is refused only where the store has no number for a generation, or no
/// room for its index.
pub fn detaching_undoes_attaching()
    ensures { DetachingUndoesAttaching }
{}

/// A done `mark`, `rollback` or `forget` writes no file. On any disk that tells what it holds, what a run says that its line met goes
/// with this: it appends exactly the index of the coming generation and the line of `next`.
pub fn marks_append_their_index()
    ensures { MarksAppendTheirIndex }
{}
