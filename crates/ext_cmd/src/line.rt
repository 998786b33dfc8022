// The lines of a batch.
ghost use Rattle.std.specs.Prelude.{◌≡◌, ◌∷◌, ℕ, List};
ghost use Rattle.ext_lines.specs.Words.{words_of};
ghost use Rattle.ext_cmd.specs.Line.{ReadsBatchLine, ReadsLineCommand, ReadsLineWords, counts_for_nothing, may_begin_line};

use crate::command::Command;
use crate::keyword::Keyword;
use crate::words::{CmdErr, read_after};
use crate::words_left::WordsLeft;
use ext_lines::next_word;
use std::alloc::Global;

/// The command of a line of a batch, whose words stand between runs of spaces and tabs; `None` exactly where the line has no
/// word, or its first word begins with `#`.
///
/// # Errors
/// `Usage` exactly where the words of any other line are no command that may stand in one, with the place of the first fault.
/// The words `layer`, `batch` and `sample` begin none: there the place is 1. `OutOfMemory` may come at any words.
pub fn read_line(alloc: Global, line: &[u8]) -> Result<Option<Command>, CmdErr>
    ensures { ReadsBatchLine line.now result }
{
    match next_word(line) {
        None => Ok(None),
        Some((word, more)) => read_begun(alloc, word, more),
    }
}

// The command of a line's first word and the text after it.
fn read_begun(alloc: Global, word: &[u8], more: &[u8]) -> Result<Option<Command>, CmdErr>
    ensures { ReadsLineWords (word.now ∷ words_of more.now) result }
{
    if begins_comment(word) {
        return Ok(None);
    }
    Ok(Some(read_command(alloc, word, more)?))
}

// Whether a line whose first word this is counts for nothing.
fn begins_comment(word: &[u8]) -> bool
    ensures { (words : List (List ℕ)) → result ≡ counts_for_nothing (word.now ∷ words) }
{
    match word {
        [] => false,
        [byte, ..] => *byte == b'#',
    }
}

// The command of a first word and the text after it.
fn read_command(alloc: Global, word: &[u8], more: &[u8]) -> Result<Command, CmdErr>
    ensures { ReadsLineCommand (word.now ∷ words_of more.now) result }
{
    match Keyword::read(word) {
        None => Err(CmdErr::Usage { place: 1 }),
        Some(keyword) => {
            if !may_begin_line(keyword) {
                return Err(CmdErr::Usage { place: 1 });
            }
            read_after(alloc, keyword, &WordsLeft::of_text(more))
        }
    }
}

// Whether a line may begin with the keyword.
fn may_begin_line(keyword: Keyword) -> bool
    ensures { result ≡ may_begin_line keyword }
{
    !matches!(keyword, Keyword::Layer | Keyword::Batch | Keyword::Sample)
}
