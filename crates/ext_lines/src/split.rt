// Texts are split at the first of some byte.
ghost use Rattle.std.specs.Prelude.{◌≡◌, ◌+◌, ◌<◌, length, take, drop, slice_index, MatchOption};
ghost use Rattle.std.specs.Option.{option_copied, option_map};
ghost use Rattle.memchr.specs.Find.{IsFirstByte, is_byte};
ghost use Rattle.ext_lines.specs.Split.{IsSplit, Lacks, before_last, split_of};

use memchr::memchr;

/// How many bytes are looked at in turn before a search of many at once begins. Most names and numbers are shorter.
const NEAR: usize = 8;

/// The text before the first of a byte, and the text after it; `None` exactly where the byte is nowhere.
pub fn split_at_byte(bytes: &[u8], byte: u8) -> Option<(&[u8], &[u8])>
    ensures { MatchOption result (Lacks byte bytes.now) (λ parts. IsSplit byte bytes.now parts.0.now parts.1.now) }
{
    match index_of(bytes, byte) {
        None => None,
        Some(index) => Some(around(bytes, index)),
    }
}

/// The text before the first of a byte of ASCII, and the text after it, each as text; `None` exactly where the byte is
/// nowhere.
pub fn split_str_at_byte(text: &str, byte: u8) -> Option<(&str, &str)>
    requires { byte < 128 }
    ensures value { option_map (λ parts. (parts.0.now, parts.1.now)) result ≡ split_of byte text.now }
    ensures parts { MatchOption result (Lacks byte text.now) (λ parts. IsSplit byte text.now parts.0.now parts.1.now) }
{
    match index_of(text.as_bytes(), byte) {
        None => None,
        Some(index) => Some(split_around(text, index)),
    }
}

/// The text before a byte of ASCII, and the text after it.
pub fn split_around(text: &str, index: usize) -> (&str, &str)
    requires within { index < length text.now }
    requires ascii { slice_index text.now index < 128 }
    ensures prefix { result.0.now ≡ take index text.now }
    ensures after { result.1.now ≡ drop (index + 1) text.now }
{
    (&text[..index], &text[index + 1..])
}

/// The bytes before the last one, where that is this byte; `None` exactly where they do not end with it.
pub fn before_last(bytes: &[u8], byte: u8) -> Option<&[u8]>
    ensures { option_copied result ≡ before_last byte bytes.now }
{
    match bytes {
        [prefix @ .., last] if *last == byte => Some(prefix),
        _ => None,
    }
}

// The bytes before an index, and those after it.
pub(crate) fn around(bytes: &[u8], index: usize) -> (&[u8], &[u8])
    requires { index < length bytes.now }
    ensures prefix { result.0.now ≡ take index bytes.now }
    ensures after { result.1.now ≡ drop (index + 1) bytes.now }
{
    (&bytes[..index], &bytes[index + 1..])
}

// The index of the first of a byte. Each of the first bytes is looked at in turn, and the others many at once.
fn index_of(bytes: &[u8], byte: u8) -> Option<usize>
    ensures { IsFirstByte (is_byte byte) bytes.now result }
{
    if bytes.len() <= NEAR {
        return index_near(bytes, byte);
    }
    let (near, far) = bytes.split_at(NEAR);
    match index_near(near, byte) {
        Some(index) => Some(index),
        None => match memchr(byte, far) {
            None => None,
            Some(index) => Some(NEAR + index),
        },
    }
}

// The index of the first of a byte, by a look at each byte in turn.
fn index_near(bytes: &[u8], byte: u8) -> Option<usize>
    ensures { IsFirstByte (is_byte byte) bytes.now result }
{
    bytes.iter().position(|other| *other == byte)
}
