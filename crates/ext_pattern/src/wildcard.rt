ghost use Rattle.std.specs.Prelude.{◌≡◌};
ghost use Rattle.ext_pattern.specs.Wildcard.{most_of, same_wildcard, wildcard_of};

// What a wildcard of a pattern stands for: a version, written `@v`, or a digest of SHA-256 in 64 lower-case hexadecimal
// digits, written `@h`.
#[derive(Clone, Copy)]
pub(crate) enum Wildcard {
    Version,
    Digest,
}

impl Wildcard {
    // The wildcard that a byte names after `@`.
    pub(crate) fn of(byte: u8) -> Option<Wildcard>
        ensures { result ≡ wildcard_of byte }
    {
        match byte {
            b'v' => Some(Wildcard::Version),
            b'h' => Some(Wildcard::Digest),
            _ => None,
        }
    }

    // Whether both are the same.
    pub(crate) fn is(self, other: Wildcard) -> bool
        ensures { result ≡ same_wildcard self other }
    {
        match (self, other) {
            (Wildcard::Version, Wildcard::Version) => true,
            (Wildcard::Version, Wildcard::Digest) => false,
            (Wildcard::Digest, Wildcard::Version) => false,
            (Wildcard::Digest, Wildcard::Digest) => true,
        }
    }

    // The most bytes that it stands for.
    pub(crate) fn most(self) -> usize
        ensures { result ≡ most_of self }
    {
        match self {
            Wildcard::Version => 128,
            Wildcard::Digest => 64,
        }
    }
}
