// Text without control bytes.
ghost use Rattle.std.specs.Prelude.{◌≡◌, ◌↔◌, true, false, IsTrue, MatchOption};
ghost use Rattle.std.specs.List.{AllPass, list_all};
ghost use Rattle.ext_lines.specs.Plain.{is_plain_byte, is_plain_or_tab, is_plain_text, is_plain_text_with_tabs};

use std::str;

/// Whether a byte is no control byte: it is neither below 0x20 nor 0x7F.
pub fn is_plain_byte(byte: u8) -> bool
    ensures { result ≡ is_plain_byte byte }
{
    byte >= b' ' && byte != 0x7F
}

/// Whether a byte is a tab, or no control byte.
pub fn is_plain_or_tab(byte: u8) -> bool
    ensures { result ≡ is_plain_or_tab byte }
{
    byte == b'\t' || is_plain_byte(byte)
}

/// Whether no byte is a control byte.
pub fn is_plain(bytes: &[u8]) -> bool
    ensures { IsTrue result ↔ AllPass is_plain_byte bytes.now }
{
    bytes.iter().all(|byte| is_plain_byte(*byte))
}

/// The bytes as text; `None` exactly where they are no UTF-8 or hold a control byte.
pub fn plain_text(bytes: &[u8]) -> Option<&str>
    ensures { MatchOption result (is_plain_text bytes.now ≡ false) (λ text. (text.now ≡ bytes.now) × (is_plain_text bytes.now ≡ true)) }
{
    if !are_plain(bytes) {
        return None;
    }
    match str::from_utf8(bytes) {
        Ok(text) => Some(text),
        Err(_) => None,
    }
}

/// The bytes as text; `None` exactly where they are no UTF-8 or hold a control byte other than a tab.
pub fn plain_text_with_tabs(bytes: &[u8]) -> Option<&str>
    ensures { MatchOption result (is_plain_text_with_tabs bytes.now ≡ false)
        (λ text. (text.now ≡ bytes.now) × (is_plain_text_with_tabs bytes.now ≡ true)) }
{
    if !are_plain_or_tabs(bytes) {
        return None;
    }
    match str::from_utf8(bytes) {
        Ok(text) => Some(text),
        Err(_) => None,
    }
}

// Whether no byte is a control byte, as a value.
fn are_plain(bytes: &[u8]) -> bool
    ensures { result ≡ list_all is_plain_byte bytes.now }
{
    bytes.iter().all(|byte| is_plain_byte(*byte))
}

// Whether no byte is a control byte other than a tab, as a value.
fn are_plain_or_tabs(bytes: &[u8]) -> bool
    ensures { result ≡ list_all is_plain_or_tab bytes.now }
{
    bytes.iter().all(|byte| is_plain_or_tab(*byte))
}
