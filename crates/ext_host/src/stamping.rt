ghost use Rattle.ext_host.specs.Held.{IsStampOf};

use ext_text::Digest;
use ext_tree::Stamp;

/// The stamp of these bytes: how many they are, and their digest. It takes no memory.
pub fn stamp_of(bytes: &[u8]) -> Stamp
    ensures { IsStampOf bytes.now result }
{
    Stamp {
        size: bytes.len() as u64,
        digest: Digest::of(bytes),
    }
}
