// Changes that own their paths.
ghost use Rattle.std.specs.Prelude.{◌≡◌, ◌++◌, ◌∷◌, [], IfOk, OnOk};
ghost use Rattle.ext_changes.specs.Lines.{change_line, changes_text};
ghost use Rattle.ext_changes.specs.Told.{all_told};

use crate::Changes;
use crate::change::{Change, ChangeKind};
use crate::printing::append_change;
use ext_text::{OutOfMemory, Path, Text};
use std::alloc::Global;

/// The same changes in the same order, with paths of their own: for an answer that outlives the trees.
///
/// # Errors
/// `OutOfMemory` alone.
pub fn owned(alloc: Global, changes: &[Change]) -> Result<Changes, OutOfMemory>
    ensures { IfOk result (λ own. own ≡ all_told changes.now) }
{
    let mut own = Vec::with_capacity(alloc, changes.len())?;
    'changes: for change in changes {
        own.push((change.path.copy()?, change.kind))?;
    }
    Ok(Changes::from_vec(own))
}

/// The lines of changes that own their paths, as [`changes_text`](crate::changes_text) gives them.
///
/// # Errors
/// `OutOfMemory` alone.
pub fn owned_text(alloc: Global, changes: &[(Path, ChangeKind)]) -> Result<Text, OutOfMemory>
    ensures { IfOk result (λ text. text ≡ changes_text changes.now) }
{
    let mut text = Vec::new(alloc);
    'changes: for change in changes {
        append_pair(&mut text, change)?;
    }
    Ok(Text::from_vec(text))
}

// The line of a path that differs so, with its newline.
fn append_pair(text: &mut Vec<u8>, change: &(Path, ChangeKind)) -> Result<(), OutOfMemory>
    ensures { OnOk result (text.new.items ≡ text.old.items ++ (change_line change.now ++ 10 ∷ [])) }
{
    append_change(
        text,
        &Change {
            path: &change.0,
            kind: change.1,
        },
    )
}
