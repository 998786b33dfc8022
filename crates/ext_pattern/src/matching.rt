// Names are taken apart by patterns.
ghost use Rattle.ext_pattern.specs.Matching.{Matches};

use crate::caught::Caught;
use crate::following::{SoFar, follow};
use crate::pattern::Pattern;
use ext_lines::begins_with;

impl Pattern {
    /// What the pattern catches of a name. `None` exactly where the name does not match, which it does where it begins with
    /// the first literal, each wildcard takes the text up to the first occurrence of the literal after it, or to the end
    /// of the name where none follows, and after the last literal the name ends. The text of `@v` must be a version, and that
    /// of `@h` a digest in 64 lower-case hexadecimal digits.
    ///
    /// The name is passed over twice at most, and no memory is taken.
    pub fn matches(&self, name: &[u8]) -> Option<Caught>
        ensures { Matches self.now name.now result }
    {
        let first = self.first.bytes();
        if !begins_with(name, first) {
            return None;
        }
        let caught = follow(self.parts.as_slice(), name, first.len(), SoFar::nothing())?;
        Some(Caught {
            version: caught.version?,
            digest: caught.digest,
        })
    }
}
