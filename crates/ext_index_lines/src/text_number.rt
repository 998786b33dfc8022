ghost use Rattle.std.specs.Prelude.{◌≡◌};
ghost use Rattle.ext_index_lines.specs.Lines.{is_later, may_tell};

use ext_tree::Entry;

/// Which text an index is.
#[derive(Clone, Copy, Debug, PartialEq, Eq)]
pub enum TextNumber {
    /// Text 1, that of a host with the default hierarchies and without past trees.
    One,
    /// Text 2, or text 3.
    Later {
        /// Whether lines may tell owners and capabilities: it is text 3.
        owners: bool,
    },
}

impl TextNumber {
    /// Whether it has hierarchies and past trees.
    pub fn is_later(self) -> bool
        ensures { result ≡ is_later self }
    {
        match self {
            TextNumber::One => false,
            TextNumber::Later { owners: _ } => true,
        }
    }

    /// Whether the line of the entry may stand there.
    pub fn may_tell<C>(self, entry: &Entry<C>) -> bool
        ensures { result ≡ may_tell self entry.now }
    {
        match self {
            TextNumber::One => entry.is_plain(),
            TextNumber::Later { owners } => entry.is_plain() || owners,
        }
    }
}
