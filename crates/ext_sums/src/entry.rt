// The lines of a manifest.
ghost use Rattle.std.specs.Prelude.{◌≡◌};
ghost use Rattle.std.specs.Option.{option_copied, option_map};
ghost use Rattle.ext_sums.specs.Entry.{entry_of, is_listed_name, name_of};

use ext_lines::plain_text;
use ext_text::Digest;

/// How many digits write a digest.
const DIGITS: usize = 64;

// The name and the digest that a line lists; `None` exactly where it is no entry.
pub(crate) fn entry_of(line: &[u8]) -> Option<(&[u8], Digest)>
    ensures { option_map (λ e. (e.0.now, e.1.0)) result ≡ entry_of line.now }
{
    if line.len() < DIGITS {
        return None;
    }
    let (digits, rest) = line.split_at(DIGITS);
    let digest = Digest::read(digits)?;
    let name = name_of(rest)?;
    Some((name, digest))
}

// The name after the digits.
fn name_of(rest: &[u8]) -> Option<&[u8]>
    ensures { option_copied result ≡ name_of rest.now }
{
    match rest {
        [b' ', b' ' | b'*', name @ ..] if is_listed_name(name) => Some(name),
        _ => None,
    }
}

// Whether bytes are a name that can be listed.
fn is_listed_name(name: &[u8]) -> bool
    ensures { result ≡ is_listed_name name.now }
{
    !name.is_empty() && plain_text(name).is_some()
}
