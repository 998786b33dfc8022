// Going back to a mark.
ghost use Rattle.std.specs.Prelude.{◌≡◌, [], IfOk, MatchResult};
ghost use Rattle.std.specs.Option.{option_copied};
ghost use Rattle.ext_history.specs.Marks.{FindsMark, back_to};
ghost use Rattle.ext_history.specs.Answers.{HistoryCause, RollsBack};
ghost use Rattle.ext_history.specs.Next.{ComesOf};

use crate::history_err::HistoryErr;
use ext_host::{Host, Listed, Past};
use ext_text::OutOfMemory;
use std::alloc::Global;

/// The host gone back to the mark of a generation: what is seen and what lies under it, the merged names, the attachments and the
/// manifests are those of the mark. The architecture, the scope, the hierarchies and all marks stay.
///
/// The host is valid where this one was. Its files are those of this host, and its marks bring none, so that whoever prepares a
/// generation finds each file of a past tree in the store. The work is that of copying the trees.
///
/// # Errors
/// - `NoMark` with the number exactly where the host has no mark of it.
/// - `OutOfMemory` where it has one.
pub fn rollback(alloc: Global, host: &Host, to: u32) -> Result<Host, HistoryErr>
    ensures says { MatchResult result (RollsBack host.now to) (HistoryCause host.now to) }
    ensures comes { IfOk result (ComesOf host.now []) }
{
    match mark_of(host.past.as_slice(), to) {
        None => Err(HistoryErr::NoMark { generation: to }),
        Some(past) => Ok(back_to(alloc, host, past)?),
    }
}

// The first mark of the generation, if there is one.
pub(crate) fn mark_of(marks: &[Past], generation: u32) -> Option<&Past>
    ensures { FindsMark generation marks.now (option_copied result) }
{
    marks.iter().find(|mark| mark.generation == generation)
}

// The host with what the mark has.
fn back_to(alloc: Global, host: &Host, past: &Past) -> Result<Host, OutOfMemory>
    ensures { IfOk result (λ next. next ≡ back_to past.now host.now) }
{
    let mark = past.copy_into(alloc)?;
    let mut next = host.with_trees(mark.root, mark.lower, mark.sysext, mark.confext)?;
    next.attached = mark.attached;
    next.kept = mark.kept;
    Ok(next)
}
