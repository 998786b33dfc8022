ghost use Rattle.std.specs.Prelude.{◌≡◌};
ghost use Rattle.ext_pattern.specs.Matching.{IsSpan, text_at};

use ext_text::Digest;

/// What a pattern caught of a name.
#[derive(Clone, Copy)]
pub struct Caught {
    /// Where the version begins in the name, and where it ends.
    pub version: (usize, usize),
    /// The digest, where the pattern has `@h`.
    pub digest: Option<Digest>,
}

impl Caught {
    /// The version, in the name of which it was caught.
    pub fn version_of<'n>(&self, name: &'n [u8]) -> &'n [u8]
        requires { IsSpan name.now self.now.version }
        ensures { result.now ≡ text_at name.now self.now.version }
    {
        let (from, to) = self.version;
        &name[from..to]
    }
}
