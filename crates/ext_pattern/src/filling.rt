// Names are made of patterns.
ghost use Rattle.std.specs.Prelude.{◌≡◌, ◌++◌, IfOk};
ghost use Rattle.std.specs.List.{flat_map};
ghost use Rattle.ext_vers.specs.Version.{IsVersion};
ghost use Rattle.ext_pattern.specs.Filling.{filled, filled_part, text_for};

use crate::part::Part;
use crate::pattern::Pattern;
use crate::wildcard::Wildcard;
use ext_lines::hex_digits;
use ext_text::{Digest, Name, OutOfMemory, Text};
use std::alloc::Global;

impl Pattern {
    /// The name that the pattern makes of a version and a digest: the version stands for `@v`, and the 64 lower-case
    /// hexadecimal digits of the digest for `@h`. The name need not match the pattern: `a_@v.raw` makes `a_1.raw.raw` of the
    /// version `1.raw`, and does not match it.
    ///
    /// # Errors
    /// `OutOfMemory` alone.
    pub fn fill(&self, version: &[u8], digest: &Digest) -> Result<Name, OutOfMemory>
        requires { IsVersion version.now }
        ensures { IfOk result (λ name. name ≡ filled self.now version.now digest.now.0) }
    {
        let digits = hex_digits(digest.bytes());
        let text = filled_text(
            self.alloc,
            self.first.bytes(),
            self.parts.as_slice(),
            version,
            &digits,
        )?;
        Name::of_bytes(self.alloc, text.bytes())
    }
}

// A first literal, and parts with a version and the digits of a digest in them.
fn filled_text(
    alloc: Global,
    first: &[u8],
    parts: &[Part],
    version: &[u8],
    digits: &[u8; 64],
) -> Result<Text, OutOfMemory>
    ensures { IfOk result (λ text. text ≡ first.now ++ flat_map (filled_part version.now digits.now) parts.now) }
{
    let mut text = Text::from_bytes(alloc, first)?;
    for part in parts {
        text.append(text_for(part.wildcard, version, digits))?;
        text.append(part.literal.bytes())?;
    }
    Ok(text)
}

// What stands for a wildcard.
fn text_for<'t>(wildcard: Wildcard, version: &'t [u8], digits: &'t [u8; 64]) -> &'t [u8]
    ensures { result.now ≡ text_for wildcard version.now digits.now }
{
    match wildcard {
        Wildcard::Version => version,
        Wildcard::Digest => digits,
    }
}
