ghost use Rattle.std.specs.Prelude.{◌≡◌, ◌+◌, length, nat_le};
ghost use Rattle.ext_pattern.specs.Part.{ends_in_wildcard, has, most_of_parts};

use crate::wildcard::Wildcard;
use ext_text::Text;

/// The most bytes of a name.
const MOST_BYTES: usize = 255;

// A wildcard of a pattern, and the literal that follows it.
#[derive(Drop)]
pub(crate) struct Part {
    pub(crate) wildcard: Wildcard,
    pub(crate) literal: Text,
}

// Whether a wildcard stands among the parts.
pub(crate) fn has(wildcard: Wildcard, parts: &[Part]) -> bool
    ensures { result ≡ has wildcard parts.now }
{
    parts.iter().any(|part| wildcard.is(part.wildcard))
}

// Whether the parts end with a wildcard, and no literal after it.
pub(crate) fn ends_in_wildcard(parts: &[Part]) -> bool
    ensures { result ≡ ends_in_wildcard parts.now }
{
    match parts.last() {
        None => false,
        Some(part) => part.literal.bytes().is_empty(),
    }
}

// Whether no name by a first literal and these parts is longer than a name may be.
pub(crate) fn is_short(first: &[u8], parts: &[Part]) -> bool
    ensures { result ≡ nat_le (length first.now + most_of_parts parts.now) 255 }
{
    let mut most = first.len();
    for part in parts {
        let literal = part.literal.bytes().len();
        if most > MOST_BYTES || literal > MOST_BYTES {
            return false;
        }
        most += part.wildcard.most() + literal;
    }
    most <= MOST_BYTES
}
