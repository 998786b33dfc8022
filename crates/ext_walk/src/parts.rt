// The names that a walk has left, the next one last: the names of a path, or the parts of a text between its slashes.
ghost use Rattle.std.specs.Prelude.{◌≡◌, ◌++◌, ◌∷◌, MatchOption, OnOk};
ghost use Rattle.ext_lines.specs.Split.{Lacks};
ghost use Rattle.ext_walk.specs.Upcoming.{upcoming};
ghost use Rattle.ext_walk.specs.Walk.{parts};

use ext_lines::OutOfMemory;
use ext_text::PathRef;
use memchr::memrchr;

// Puts the parts of a text before the names that are left.
pub(crate) fn push_parts<'a>(left: &mut Vec<&'a [u8]>, text: &'a [u8]) -> Result<(), OutOfMemory>
    ensures { OnOk result (upcoming left.new.items ≡ parts text.now ++ upcoming left.old.items) }
{
    let mut rest = text;
    'parts: loop {
        match split_last(rest) {
            None => {
                left.push(rest)?;
                return Ok(());
            }
            Some((before, part)) => {
                left.push(part)?;
                rest = before;
            }
        }
    }
}

// Puts the names before those that are left.
pub(crate) fn push_names<'a>(
    left: &mut Vec<&'a [u8]>,
    names: &PathRef<'a>,
) -> Result<(), OutOfMemory>
    ensures { OnOk result (upcoming left.new.items ≡ names.now ++ upcoming left.old.items) }
{
    if names.is_root() {
        return Ok(());
    }
    let text = names.text();
    push_parts(left, text)
}

// The text before its last slash, and the text after it; `None` exactly where it has none.
fn split_last(text: &[u8]) -> Option<(&[u8], &[u8])>
    ensures { MatchOption result (Lacks 47 text.now) (λ p. (text.now ≡ p.0.now ++ 47 ∷ p.1.now) × Lacks 47 p.1.now) }
{
    match memrchr(b'/', text) {
        None => None,
        Some(index) => {
            let (before, rest) = text.split_at(index);
            match rest {
                [] => None,
                [_slash, part @ ..] => Some((before, part)),
            }
        }
    }
}
