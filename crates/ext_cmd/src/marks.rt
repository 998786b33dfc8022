// The words after `mark`, `history`, `rollback` and `forget`. The first of them has the place 2.
ghost use Rattle.std.specs.Prelude.{◌≡◌, ◌<◌, ◌^◌, ◌↔◌, IsTrue, codes};
ghost use Rattle.ext_cmd.specs.Grammar.{HasNoMore, IsMarkWord, Then};
ghost use Rattle.ext_cmd.specs.Reading.{ReadsAfter, ReadsPart};
ghost use Rattle.ext_cmd.specs.Words.{IsMarkNumber, mark_words};
ghost use Rattle.ext_cmd.specs.declared.keyword.Keyword.TheVariants as keywords;

use crate::arguments::no_more;
use crate::command::Command;
use crate::numbers::{read_keep, read_mark_number};
use crate::words::CmdErr;
use crate::words_left::WordsLeft;

// `mark [K]`.
pub(crate) fn read_mark(more: &WordsLeft<'_>) -> Result<Command, CmdErr>
    ensures { ReadsAfter keywords.Mark more.now result }
{
    match more.next() {
        None => Ok(Command::Mark { keep: None }),
        Some((word, more)) => {
            let keep = read_keep(word, 2)?;
            no_more(&more, 3)?;
            Ok(Command::Mark { keep: Some(keep) })
        }
    }
}

// `history [--changes N]`.
pub(crate) fn read_history(more: &WordsLeft<'_>) -> Result<Command, CmdErr>
    ensures { ReadsAfter keywords.History more.now result }
{
    match more.next() {
        None => Ok(Command::History),
        Some((word, more)) => {
            if !is_since(word) {
                return Err(CmdErr::Usage { place: 2 });
            }
            let mark = read_last_mark(&more, 3)?;
            Ok(Command::HistoryChanges { mark })
        }
    }
}

// The option by which `history` tells what has changed since a mark.
fn is_since(word: &[u8]) -> bool
    ensures { IsTrue result ↔ (word.now ≡ codes "--changes") }
{
    matches!(word, b"--changes")
}

// `rollback N`.
pub(crate) fn read_rollback(more: &WordsLeft<'_>) -> Result<Command, CmdErr>
    ensures { ReadsAfter keywords.Rollback more.now result }
{
    let mark = read_last_mark(more, 2)?;
    Ok(Command::Rollback { mark })
}

// `forget N`.
pub(crate) fn read_forget(more: &WordsLeft<'_>) -> Result<Command, CmdErr>
    ensures { ReadsAfter keywords.Forget more.now result }
{
    let mark = read_last_mark(more, 2)?;
    Ok(Command::Forget { mark })
}

// The number of a mark's generation, which stands last.
fn read_last_mark(words: &WordsLeft<'_>, first: u64) -> Result<u32, CmdErr>
    requires { first < 2 ^ 32 }
    ensures { ReadsPart mark_words IsMarkNumber (Then IsMarkWord HasNoMore) words.now first result }
{
    match words.next() {
        None => Err(CmdErr::Usage { place: first }),
        Some((word, more)) => {
            let mark = read_mark_number(word, first)?;
            no_more(&more, first + 1)?;
            Ok(mark)
        }
    }
}
