// Blanks: spaces and tabs.
ghost use Rattle.std.specs.Prelude.{◌≡◌};
ghost use Rattle.ext_lines.specs.Blanks.{after_blanks, before_blanks, is_blank, trimmed};

use crate::split::split_around;

/// Whether a byte is a space or a tab.
pub fn is_blank(byte: u8) -> bool
    ensures { result ≡ is_blank byte }
{
    byte == b' ' || byte == b'\t'
}

/// The bytes without the blanks at both ends.
pub fn trimmed(bytes: &[u8]) -> &[u8]
    ensures { result.now ≡ trimmed bytes.now }
{
    before_blanks(after_blanks(bytes))
}

/// The bytes without the blanks that they begin with.
pub fn after_blanks(bytes: &[u8]) -> &[u8]
    ensures { result.now ≡ after_blanks bytes.now }
{
    let mut rest = bytes;
    'blanks: loop {
        match rest {
            [first, after @ ..] if is_blank(*first) => rest = after,
            _ => return rest,
        }
    }
}

/// The bytes without the blanks at their end.
pub fn before_blanks(bytes: &[u8]) -> &[u8]
    ensures { result.now ≡ before_blanks bytes.now }
{
    let mut rest = bytes;
    'blanks: loop {
        match rest {
            [prefix @ .., last] if is_blank(*last) => rest = prefix,
            _ => return rest,
        }
    }
}

/// The text without the blanks at both ends, as text.
pub fn trimmed_str(text: &str) -> &str
    ensures { result.now ≡ trimmed text.now }
{
    str_before_blanks(str_after_blanks(text))
}

// The text without the blanks that it begins with.
fn str_after_blanks(text: &str) -> &str
    ensures { result.now ≡ after_blanks text.now }
{
    let mut rest = text;
    'blanks: loop {
        match rest.as_bytes() {
            [first, ..] if is_blank(*first) => rest = split_around(rest, 0).1,
            _ => return rest,
        }
    }
}

// The text without the blanks at its end.
fn str_before_blanks(text: &str) -> &str
    ensures { result.now ≡ before_blanks text.now }
{
    let mut rest = text;
    'blanks: loop {
        match rest.as_bytes() {
            [prefix @ .., last] if is_blank(*last) => rest = split_around(rest, prefix.len()).0,
            _ => return rest,
        }
    }
}
