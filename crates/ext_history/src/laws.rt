//! Laws of marks, each the contract of a function that does nothing.
ghost use Rattle.ext_history.specs.Laws.{BackAfterAll, BackAtOnce, BackFromAny, DoneOrRefused, ForgetKeeps, ForgetTakesOne, ForgetUndoesMark, HistoryDescends, MarkIsThere};
ghost use Rattle.ext_history.specs.Laws.{MarkKeeps, MarkStays, NoMoreStay, NotDroppedStays, OneForget, OneMark, OneRollback, RollbackKeeps, YoungestStay};

/// A host that was just marked has the mark, and a rollback to it changes nothing.
pub fn a_rollback_at_once_changes_nothing()
    ensures there { MarkIsThere }
    ensures back { BackAtOnce }
{}

/// Over any valid hosts that have the mark of a host, a rollback to it gives what is seen of that host and what lies under it, its
/// merged names, its attachments and its manifests.
pub fn a_rollback_gives_what_was_marked()
    ensures { BackFromAny }
{}

/// After a mark and any changes of the host that keep it, a rollback to it is not refused, and gives what was marked.
pub fn a_rollback_undoes_all_changes()
    ensures stays { MarkStays }
    ensures back { BackAfterAll }
{}

/// A rollback keeps each mark, forgetting one keeps those of other generations, and a new one keeps all others where fewer were
/// there than may stay. Whatever comes of a valid host by its marks, a mark that is not dropped stays what it was.
pub fn calls_keep_marks()
    ensures rollback { RollbackKeeps }
    ensures forget { ForgetKeeps }
    ensures mark { MarkKeeps }
    ensures any { NotDroppedStays }
{}

/// To forget a mark takes one from a valid host. Where it was just made, and the host had fewer marks than may stay, that gives
/// the host of before.
pub fn forgetting_takes_one_mark()
    ensures one { ForgetTakesOne }
    ensures undoes { ForgetUndoesMark }
{}

/// No more marks stay than may, and those of which fewer are younger; and the list of a valid host's marks has their generations in
/// descending order.
pub fn the_youngest_stay_and_come_first()
    ensures few { NoMoreStay }
    ensures stay { YoungestStay }
    ensures first { HistoryDescends }
{}

/// A valid host has one mark of a generation, so that there is one rollback to it, and one host without it; and either there is no
/// such mark, or both are done.
pub fn there_is_one_answer()
    ensures mark { OneMark }
    ensures rollback { OneRollback }
    ensures forget { OneForget }
    ensures refused { DoneOrRefused }
{}
