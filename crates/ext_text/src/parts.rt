// The parts of a text between its slashes: how many there are, and whether each is a name.
ghost use Rattle.std.specs.Prelude.{◌≡◌, ◌↔◌, ◌+◌, ◌≤◌, [], ◌∷◌, ◌++◌, length, ◌==◌, true, IsTrue, MatchOption, count_by};
ghost use Rattle.std.specs.List.{AllByRecursion, list_all, slice_split};
ghost use Rattle.memchr.specs.Find.{IsLastByte, is_byte};
ghost use Rattle.ext_lines.specs.Split.{Lacks};
ghost use Rattle.ext_text.specs.Name.{IsName, is_plain_ascii};
ghost use Rattle.ext_text.specs.Path.{path_parts};

use crate::name::{has_name_shape, is_name};
use crate::plain::are_plain_ascii;
use ext_lines::split_at_byte;
use memchr::memrchr;

// How many parts a text has between its slashes. Sixteen bits hold the count, of which a processor adds many at once.
pub(crate) fn count_of_parts(bytes: &[u8]) -> usize
    requires { length bytes.now ≤ 4096 }
    ensures { result ≡ count_by (λ b. b == 47) bytes.now + 1 }
{
    let mut slashes = 0u16;
    'bytes: for byte in bytes {
        slashes += (*byte == b'/') as u16;
    }
    slashes as usize + 1
}

// Whether each part of a text is a name. The empty text has none.
pub(crate) fn are_names(bytes: &[u8]) -> bool
    ensures { IsTrue result ↔ AllByRecursion IsName (path_parts bytes.now) }
{
    bytes.is_empty() || are_all_names(bytes, are_plain_ascii(bytes))
}

// The same of a text that is not empty, by its parts. `plain` says that the whole text is plain ASCII.
fn are_all_names(bytes: &[u8], plain: bool) -> bool
    requires { plain ≡ list_all is_plain_ascii bytes.now }
    ensures { IsTrue result ↔ AllByRecursion IsName (slice_split (λ b. b == 47) bytes.now) }
{
    let mut rest = bytes;
    'parts: loop {
        match split_at_byte(rest, b'/') {
            None => return is_name_part(rest, plain),
            Some((part, after)) => {
                if !is_name_part(part, plain) {
                    return false;
                }
                rest = after;
            }
        }
    }
}

// Whether a part is a name. One of plain ASCII is, by its length and its dots alone.
fn is_name_part(part: &[u8], plain: bool) -> bool
    requires slash { Lacks 47 part.now }
    requires plain { plain ≡ true → list_all is_plain_ascii part.now ≡ true }
    ensures { IsTrue result ↔ IsName part.now }
{
    if plain {
        has_name_shape(part)
    } else {
        is_name(part)
    }
}

// The text before the last slash, and the text after it; `None` exactly where there is no slash.
pub(crate) fn split_at_last_slash(text: &[u8]) -> Option<(&[u8], &[u8])>
    ensures { MatchOption result (Lacks 47 text.now) (λ r. (text.now ≡ r.0.now ++ 47 ∷ r.1.now) × Lacks 47 r.1.now) }
{
    match memrchr(b'/', text) {
        None => None,
        Some(index) => Some((&text[..index], &text[index + 1..])),
    }
}
