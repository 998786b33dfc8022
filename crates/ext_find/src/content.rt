// What an entry is to a search: a mask, a file with bytes, something other than a directory.
ghost use Rattle.std.specs.Prelude.{◌≡◌, ℕ};
ghost use Rattle.ext_find.specs.Content.{is_full, is_link, is_mask};

use ext_host::Held;
use ext_tree::{Entry, Stamp};

/// Contents of files whose sizes are known.
pub trait Measured {
    /// How many bytes the file has.
    ghost size: { Self → ℕ };

    /// How many bytes the file has.
    fn size(&self) -> u64
        ensures { result ≡ Self.size self.now };
}

impl Measured for Stamp {
    ghost size = { λ stamp. stamp.size };

    fn size(&self) -> u64 {
        self.size
    }
}

impl Measured for Held {
    ghost size = { λ held. held.stamp.size };

    fn size(&self) -> u64 {
        self.stamp().size
    }
}

/// Whether it is a mask: an empty file, or a link whose text is `/dev/null`. Links are not followed.
pub fn is_mask<C: Measured>(entry: &Entry<C>) -> bool
    ensures { result ≡ is_mask C.size entry.now }
{
    match entry {
        Entry::Dir(_) | Entry::Opaque(_) | Entry::Hide => false,
        Entry::File(_, content) => content.size() == 0,
        Entry::Link(_, target) => target.bytes().cmp(b"/dev/null".as_slice()).is_eq(),
    }
}

// Whether it is a link.
pub(crate) fn is_link<C>(entry: &Entry<C>) -> bool
    ensures { result ≡ is_link entry.now }
{
    match entry {
        Entry::Dir(_) | Entry::Opaque(_) | Entry::File(_, _) | Entry::Hide => false,
        Entry::Link(_, _) => true,
    }
}

// Whether it is a file that is not empty.
pub(crate) fn is_full<C: Measured>(entry: &Entry<C>) -> bool
    ensures { result ≡ is_full C.size entry.now }
{
    match entry {
        Entry::Dir(_) | Entry::Opaque(_) | Entry::Link(_, _) | Entry::Hide => false,
        Entry::File(_, content) => content.size() != 0,
    }
}
