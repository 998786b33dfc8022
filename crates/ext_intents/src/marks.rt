// The commands of marks.
ghost use Rattle.std.specs.Prelude.{◌≡◌, IfOk};
ghost use Rattle.std.specs.Option.{option_copied};
ghost use Rattle.ext_host.specs.Valid.{IsValidHost};
ghost use Rattle.ext_history.specs.Marks.{AreBefore};
ghost use Rattle.ext_cmd.specs.Words.{IsOptionalKeep};
ghost use Rattle.ext_intents.specs.Marks.{HistoryChangesWants, MarkWants, AnswersChanges, forget_intent, history_intent, mark_in, rollback_intent};

use crate::intent::Intent;
use ext_changes::{changes, owned};
use ext_cmd::{Answer, Refusal, kept_marks};
use ext_history::{HistoryErr, forget, history, mark, rollback};
use ext_host::{Held, Host, Past};
use ext_text::OutOfMemory;
use ext_tree::Tree;
use std::alloc::Global;

/// What `mark` wants of a host whose generation has this number; `keep` is how many marks stay at the most, 1 to 16, where it is
/// given.
///
/// # Errors
/// Out of memory alone.
pub(crate) fn mark_step(
    alloc: Global,
    host: &Host,
    number: u32,
    keep: Option<u32>,
) -> Result<Intent, OutOfMemory>
    requires before { AreBefore number host.now.past }
    requires keep { IsOptionalKeep keep }
    ensures { IfOk result (MarkWants number host.now keep) }
{
    let next = mark(alloc, host, number, kept_marks(keep))?;
    let answer = Answer::Marked { generation: number };
    Ok(Intent::Changes(next, answer))
}

/// What `history` wants of a host.
///
/// # Errors
/// Out of memory alone.
pub(crate) fn history_step(alloc: Global, host: &Host) -> Result<Intent, OutOfMemory>
    ensures { IfOk result (λ intent. intent ≡ history_intent host.now) }
{
    let marks = history(alloc, host)?;
    Ok(Intent::Answers(Answer::History(marks)))
}

/// What `history --changes` wants of a host, for the mark of this generation.
///
/// # Errors
/// Out of memory alone.
pub(crate) fn history_changes_step(
    alloc: Global,
    host: &Host,
    generation: u32,
) -> Result<Intent, OutOfMemory>
    ensures { IfOk result (HistoryChangesWants host.now generation) }
{
    match mark_of(host.past.as_slice(), generation) {
        None => Ok(Intent::Refuses(Refusal::NoMark { generation })),
        Some(mark) => changes_told(alloc, &mark.root, &host.root),
    }
}

// The mark of a generation, if there is one.
fn mark_of(marks: &[Past], generation: u32) -> Option<&Past>
    ensures { option_copied result ≡ mark_in generation marks.now }
{
    marks.iter().find(|mark| mark.generation == generation)
}

// The changes from an earlier tree to a later one.
fn changes_told(
    alloc: Global,
    earlier: &Tree<Held>,
    later: &Tree<Held>,
) -> Result<Intent, OutOfMemory>
    ensures { IfOk result (AnswersChanges earlier.now later.now) }
{
    let list = changes(alloc, earlier, later)?;
    let list = owned(alloc, &list)?;
    Ok(Intent::Answers(Answer::Changes(list)))
}

/// What `rollback` wants of a host, to the mark of this generation.
///
/// # Errors
/// Out of memory alone.
pub(crate) fn rollback_step(alloc: Global, host: &Host, to: u32) -> Result<Intent, OutOfMemory>
    requires { IsValidHost host.now }
    ensures { IfOk result (λ intent. intent ≡ rollback_intent host.now to) }
{
    match rollback(alloc, host, to) {
        Ok(next) => Ok(Intent::Changes(next, Answer::Done)),
        Err(HistoryErr::NoMark { generation }) => Ok(Intent::Refuses(Refusal::NoMark {
            generation,
        })),
        Err(HistoryErr::OutOfMemory) => Err(OutOfMemory),
    }
}

/// What `forget` wants of a host, for the mark of this generation.
///
/// # Errors
/// Out of memory alone.
pub(crate) fn forget_step(alloc: Global, host: &Host, which: u32) -> Result<Intent, OutOfMemory>
    requires { IsValidHost host.now }
    ensures { IfOk result (λ intent. intent ≡ forget_intent host.now which) }
{
    match forget(alloc, host, which) {
        Ok(next) => Ok(Intent::Changes(next, Answer::Done)),
        Err(HistoryErr::NoMark { generation }) => Ok(Intent::Refuses(Refusal::NoMark {
            generation,
        })),
        Err(HistoryErr::OutOfMemory) => Err(OutOfMemory),
    }
}
