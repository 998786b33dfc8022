// The bytes of files.
ghost use Rattle.std.specs.Prelude.{◌≡◌};
ghost use Rattle.ext_host.specs.Valid.{bytes_of};

use crate::held::Held;
use ext_tree::Entry;

/// The most bytes of all files of a host, and of a past tree.
pub const MOST_HOST_BYTES: u64 = 4_294_967_296;

/// The bytes of an entry's file; 0 of an entry that is none.
pub fn bytes_of(entry: &Entry<Held>) -> u64
    ensures { result ≡ bytes_of entry.now }
{
    match entry {
        Entry::File(_, held) => held.stamp().size,
        Entry::Dir(_) | Entry::Opaque(_) | Entry::Link(_, _) | Entry::Hide => 0,
    }
}
