// The lines of a unit file.
ghost use Rattle.std.specs.Prelude.{◌≡◌};
ghost use Rattle.ext_ini.specs.Line.{begins_comment, fault_of, is_comment, is_no_bracket, is_section_name};
ghost use Rattle.std.specs.List.{list_all};

use ext_lines::{after_blanks, plain_text_with_tabs};

// Whether a line is a comment.
pub(crate) fn is_comment(line: &[u8]) -> bool
    ensures { result ≡ is_comment line.now }
{
    begins_comment(after_blanks(line))
}

// Whether the first byte of a text begins a comment.
fn begins_comment(text: &[u8]) -> bool
    ensures { result ≡ begins_comment text.now }
{
    match text {
        [] => false,
        [first, ..] => *first == b'#' || *first == b';',
    }
}

// The number of a line that is no text; `None` where it is text.
pub(crate) fn fault_of(number: u64, line: &[u8]) -> Option<u64>
    ensures { result ≡ fault_of number line.now }
{
    match plain_text_with_tabs(line) {
        Some(_) => None,
        None => Some(number),
    }
}

// Whether a text may stand in brackets as the name of a section.
pub(crate) fn is_section_name(text: &[u8]) -> bool
    ensures { result ≡ is_section_name text.now }
{
    !text.is_empty() && lacks_brackets(text)
}

// Whether a text has no bracket.
fn lacks_brackets(text: &[u8]) -> bool
    ensures { result ≡ list_all is_no_bracket text.now }
{
    text.iter().all(|byte| is_no_bracket(*byte))
}

// Whether a byte is no bracket.
fn is_no_bracket(byte: u8) -> bool
    ensures { result ≡ is_no_bracket byte }
{
    byte != b'[' && byte != b']'
}
