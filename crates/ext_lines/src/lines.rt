// The lines of a text, one by one.
ghost use Rattle.std.specs.Prelude.{◌≡◌, ◌<◌, ◌∷◌, [], length, MatchOption};
ghost use Rattle.std.specs.Str.Lines.{strip_carriage_return};
ghost use Rattle.ext_lines.specs.Lines.{IsNextLine, text_lines};
ghost use Rattle.ext_lines.specs.Split.{IsSplit, Lacks};

use crate::split::around;
use memchr::memchr;

/// The text before the first newline, and the text after it; `None` exactly where there is no newline.
pub fn split_line(text: &[u8]) -> Option<(&[u8], &[u8])>
    ensures { MatchOption result (Lacks 10 text.now) (λ parts. IsSplit 10 text.now parts.0.now parts.1.now) }
{
    // Most lines are long, so many bytes are searched at once from the first on.
    match memchr(b'\n', text) {
        None => None,
        Some(index) => Some(around(text, index)),
    }
}

/// The first line of a text, without its newline, and the text after that newline; `None` for the latter exactly where no
/// newline ends the line.
pub fn next_line(text: &[u8]) -> (&[u8], Option<&[u8]>)
    ensures { IsNextLine text.now result.0.now result.1 }
{
    match split_line(text) {
        None => (text, None),
        Some((line, after)) => (line, Some(after)),
    }
}

/// The first line of a text whose last line may lack its newline, and the text after that line; `None` exactly where no
/// line is left, which is the empty text.
pub fn next_text_line(text: &[u8]) -> Option<(&[u8], &[u8])>
    ensures { MatchOption result
        (text_lines text.now ≡ [])
        (λ parts. (text_lines text.now ≡ parts.0.now ∷ text_lines parts.1.now) × (length parts.1.now < length text.now)) }
{
    match split_line(text) {
        Some(parts) => Some(parts),
        None => last_text_line(text),
    }
}

// The same of a text that has no newline.
fn last_text_line(text: &[u8]) -> Option<(&[u8], &[u8])>
    requires { Lacks 10 text.now }
    ensures { MatchOption result
        (text_lines text.now ≡ [])
        (λ parts. (text_lines text.now ≡ parts.0.now ∷ text_lines parts.1.now) × (length parts.1.now < length text.now)) }
{
    if text.is_empty() {
        None
    } else {
        Some((text, &[]))
    }
}

/// The line without one carriage return at its end.
pub fn strip_carriage_return(line: &[u8]) -> &[u8]
    ensures { result.now ≡ strip_carriage_return line.now }
{
    match line {
        [prefix @ .., b'\r'] => prefix,
        _ => line,
    }
}
