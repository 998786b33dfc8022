ghost use Rattle.std.specs.Prelude.{◌≡◌, ◌↔◌, IsTrue};
ghost use Rattle.std.specs.Char.{is_ascii_alphanumeric};
ghost use Rattle.std.specs.List.{list_any};
ghost use Rattle.ext_vers.specs.Version.{IsVersion, is_version_byte};

/// The most bytes of a version.
const MOST_BYTES: usize = 128;

// Whether a byte may stand in a version.
fn is_version_byte(byte: u8) -> bool
    ensures { result ≡ is_version_byte byte }
{
    is_letter_or_digit(byte) || matches!(byte, b'.' | b'_' | b'-' | b'+' | b'~' | b'^')
}

// Whether a byte is a letter or a digit.
fn is_letter_or_digit(byte: u8) -> bool
    ensures { result ≡ is_ascii_alphanumeric byte }
{
    byte.is_ascii_alphanumeric()
}

// Whether a letter or a digit is among the bytes.
fn has_letter_or_digit(text: &[u8]) -> bool
    ensures { result ≡ list_any is_ascii_alphanumeric text.now }
{
    text.iter().any(|byte| is_letter_or_digit(*byte))
}

/// Whether a text is a version: 1 to 128 bytes of ASCII letters, digits, `.`, `_`, `-`, `+`, `~` and `^`, with at least
/// one letter or digit among them.
pub fn is_version(text: &[u8]) -> bool
    ensures { IsTrue result ↔ IsVersion text.now }
{
    !text.is_empty()
        && text.len() <= MOST_BYTES
        && text.iter().all(|byte| is_version_byte(*byte))
        && has_letter_or_digit(text)
}
