// The lines of changes.
ghost use Rattle.std.specs.Prelude.{◌≡◌, ◌++◌, ◌∷◌, [], IfOk, OnErr, OnOk};
ghost use Rattle.ext_lines.specs.Prefix.{AppendsPrefix};
ghost use Rattle.ext_changes.specs.Lines.{change_line, changes_text, sign};
ghost use Rattle.ext_changes.specs.Told.{all_told, told};

use crate::change::{Change, ChangeKind};
use ext_text::{OutOfMemory, Text};
use std::alloc::Global;

/// The lines of changes in their order, each with its newline: `+ /PATH` where an entry was added, `- /PATH` where one was
/// removed, `* /PATH` where one was changed.
///
/// # Errors
/// `OutOfMemory` alone.
pub fn changes_text(alloc: Global, changes: &[Change]) -> Result<Text, OutOfMemory>
    ensures { IfOk result (λ text. text ≡ changes_text (all_told changes.now)) }
{
    let mut text = Vec::new(alloc);
    for change in changes {
        append_change(&mut text, change)?;
    }
    Ok(Text::from_vec(text))
}

/// Adds the line of a change, with its newline, at the end of a text.
///
/// # Errors
/// `OutOfMemory` alone. Some prefix of the line was then added.
pub fn append_change(text: &mut Vec<u8>, change: &Change) -> Result<(), OutOfMemory>
    ensures ok { OnOk result (text.new.items ≡ text.old.items ++ (change_line (told change.now) ++ 10 ∷ [])) }
    ensures err { OnErr result (AppendsPrefix text.old.items text.new.items (change_line (told change.now) ++ 10 ∷ [])) }
{
    append_line(text, change)?;
    append_bytes(text, b"\n")
}

// Adds the line of a change without its newline.
fn append_line(text: &mut Vec<u8>, change: &Change) -> Result<(), OutOfMemory>
    ensures ok { OnOk result (text.new.items ≡ text.old.items ++ change_line (told change.now)) }
    ensures err { OnErr result (AppendsPrefix text.old.items text.new.items (change_line (told change.now))) }
{
    append_bytes(text, sign(change.kind))?;
    change.path.append_absolute(text)
}

// The sign of a kind, and a space.
fn sign(kind: ChangeKind) -> &'static [u8]
    ensures { result.now ≡ sign kind ∷ 32 ∷ [] }
{
    match kind {
        ChangeKind::Added => b"+ ",
        ChangeKind::Removed => b"- ",
        ChangeKind::Changed => b"* ",
    }
}

// Adds bytes, or nothing.
fn append_bytes(text: &mut Vec<u8>, bytes: &[u8]) -> Result<(), OutOfMemory>
    ensures ok { OnOk result (text.new.items ≡ text.old.items ++ bytes.now) }
    ensures err { OnErr result (AppendsPrefix text.old.items text.new.items bytes.now) }
{
    text.extend_from_slice(bytes)?;
    Ok(())
}
