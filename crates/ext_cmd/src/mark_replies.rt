// The texts of answers to `mark` and `history`.
ghost use Rattle.std.specs.Prelude.{◌≡◌, ◌++◌, IfOk, OnOk};
ghost use Rattle.std.specs.List.{flat_map};
ghost use Rattle.ext_cmd.specs.Replies.{answer_text, mark_line};
ghost use Rattle.ext_cmd.specs.declared.answer.Answer.TheVariants.{Marked};

use crate::appending::append_numbered_line;
use ext_history::Mark;
use ext_lines::append_decimal;
use ext_text::{OutOfMemory, Text};
use std::alloc::Global;

// The generation that was marked, on a line.
pub(crate) fn marked_text(alloc: Global, generation: u32) -> Result<Text, OutOfMemory>
    ensures { IfOk result (λ text. text ≡ answer_text (Marked generation)) }
{
    let mut text = Vec::new(alloc);
    append_numbered_line(&mut text, "marked ", u64::from(generation))?;
    Ok(Text::from_vec(text))
}

// A line for each mark.
pub(crate) fn marks_text(alloc: Global, marks: &[Mark]) -> Result<Text, OutOfMemory>
    ensures { IfOk result (λ text. text ≡ flat_map mark_line marks.now) }
{
    let mut text = Vec::new(alloc);
    'marks: for mark in marks {
        append_mark(&mut text, mark)?;
    }
    Ok(Text::from_vec(text))
}

// The line of a mark.
fn append_mark(text: &mut Vec<u8>, mark: &Mark) -> Result<(), OutOfMemory>
    ensures { OnOk result (text.new.items ≡ text.old.items ++ mark_line mark.now) }
{
    append_decimal(text, u64::from(mark.generation))?;
    text.push(b' ')?;
    append_decimal(text, mark.entries)?;
    text.push(b' ')?;
    append_decimal(text, mark.files)?;
    text.push(b'\n')?;
    Ok(())
}
