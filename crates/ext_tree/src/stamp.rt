ghost use Rattle.std.specs.Prelude.{◌≡◌};

use crate::entry::Held1;
use crate::entry_line::LineContent;
use crate::fields::{append_stamp, split_stamp};
use ext_lines::OutOfMemory;
use ext_text::Digest;
use std::alloc::Global;

/// What is known of a file's bytes: how many there are, and their SHA-256 digest.
#[derive(Clone, Copy, Debug, PartialEq, Eq)]
pub struct Stamp {
    /// The number of bytes.
    pub size: u64,
    /// The digest of the bytes.
    pub digest: Digest,
}

impl Held1 for Stamp {
    fn copy(&self, _alloc: Global) -> Result<Stamp, OutOfMemory> {
        Ok(*self)
    }
}

impl LineContent for Stamp {
    ghost use Rattle.ext_tree.specs.TreeText.{stamp_form};
    ghost use Rattle.ext_tree.specs.StampLaws.{stamps_once, stamps_lack};

    ghost form = { stamp_form };

    fn split_from(text: &[u8]) -> Option<(Stamp, &[u8])> {
        split_stamp(text)
    }

    fn append_to(&self, text: &mut Vec<u8>) -> Result<(), OutOfMemory> {
        append_stamp(text, self)
    }

    ghost once = { stamps_once };

    ghost lacks = { stamps_lack };
}
