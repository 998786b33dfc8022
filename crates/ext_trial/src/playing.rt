// A case is played, statement by statement.
use crate::stage::{Stage, answer};
use crate::telling::{Failure, difference, make_failure};
use ext_case::{Case, Statement, Trouble, one_and_more, string};
use ext_text::Text;

/// The first statement of a case that fails; `None` where none does.
pub(crate) fn play(
    rt: &HostRuntime,
    before: &Case,
    case: &Case,
) -> Result<Option<Failure>, Trouble> {
    let mut stage = Stage::new(rt.alloc());
    if let Some(failure) = play_all(rt, &mut stage, before.statements.as_slice())? {
        return Ok(Some(failure));
    }
    if let Some(failure) = play_all(rt, &mut stage, case.statements.as_slice())? {
        return Ok(Some(failure));
    }
    unsaid(rt, &stage, case.line)
}

fn play_all(
    rt: &HostRuntime,
    stage: &mut Stage,
    statements: &[Statement],
) -> Result<Option<Failure>, Trouble> {
    for statement in statements {
        let failed = play_statement(rt, stage, statement)?;
        if failed.is_some() {
            return Ok(failed);
        }
    }
    Ok(None)
}

// A command ended with another status than 0, and no statement states it.
fn unsaid(rt: &HostRuntime, stage: &Stage, line: u64) -> Result<Option<Failure>, Trouble> {
    match stage.scene.unsaid() {
        None => Ok(None),
        Some(status) => {
            let mut came = Text::from_bytes(rt.alloc(), b"status ")?;
            came.append(status.bytes())?;
            let told = difference(rt.alloc(), line, b"status 0", came.bytes())?;
            Ok(Some(told))
        }
    }
}

fn play_statement(
    rt: &HostRuntime,
    stage: &mut Stage,
    statement: &Statement,
) -> Result<Option<Failure>, Trouble> {
    let (word, arguments) = one_and_more(statement.words.as_slice())?;
    if word.bytes() != b"status".as_slice()
        && let Some(failure) = unsaid(rt, stage, statement.line)?
    {
        return Ok(Some(failure));
    }
    let found = answer_of(rt, stage, word, arguments);
    judged(rt, statement, found)
}

fn answer_of(
    rt: &HostRuntime,
    stage: &mut Stage,
    word: &Text,
    arguments: &[Text],
) -> Result<Option<Text>, Trouble> {
    answer(rt, stage, string(word)?, arguments)
}

// Whether what a statement wrote is what is expected of it.
fn judged(
    rt: &HostRuntime,
    statement: &Statement,
    found: Result<Option<Text>, Trouble>,
) -> Result<Option<Failure>, Trouble> {
    let line = statement.line;
    match found {
        Ok(Some(text)) if text.bytes() == statement.expected.bytes() => Ok(None),
        Ok(Some(text)) => Ok(Some(difference(
            rt.alloc(),
            line,
            statement.expected.bytes(),
            text.bytes(),
        )?)),
        Ok(None) => Ok(Some(make_failure(rt.alloc(), line, "no such word")?)),
        Err(Trouble::Unreadable(why)) => Ok(Some(make_failure(rt.alloc(), line, why)?)),
        Err(Trouble::OutOfMemory) => Ok(Some(make_failure(rt.alloc(), line, "out of memory")?)),
    }
}
