// The limits of the two trees of a host, which are counted together.
ghost use Rattle.std.specs.Prelude.{◌≡◌, ◌+◌, ◌-◌, ◌<◌, ◌≤◌, ◌↔◌, length, IsTrue, MatchOption, SomeIff};
ghost use Rattle.ext_tree.specs.Tree.{most_entries};
ghost use Rattle.ext_host.specs.Limits.{AreWithin, PassLimit, passed_limit};
ghost use Rattle.ext_host.specs.Valid.{all_bytes, bytes_of, most_bytes};

use crate::held::Held;
use crate::sizes::{MOST_HOST_BYTES, bytes_of};
use ext_text::{Path, Which};
use ext_tree::{Entry, MOST_ENTRIES};

/// The first limit that what is seen of a host and what lies under it pass together: `Entries` where they have more than
/// 262,144 entries, else `Bytes` where their files have more than 4,294,967,296 bytes. `None` exactly where they are
/// within both.
pub fn passed_limit(root: &[(Path, Entry<Held>)], lower: &[(Path, Entry<Held>)]) -> Option<Which>
    ensures same { result ≡ passed_limit root.now lower.now }
    ensures says { MatchOption result (AreWithin root.now lower.now) (λ which. PassLimit which root.now lower.now) }
{
    if are_too_many(root.len(), lower.len()) {
        Some(Which::Entries)
    } else if are_too_large(root, lower) {
        Some(Which::Bytes)
    } else {
        None
    }
}

// Whether two trees have too many entries together.
fn are_too_many(root: usize, lower: usize) -> bool
    ensures { IsTrue result ↔ (most_entries < root + lower) }
{
    root > MOST_ENTRIES || lower > MOST_ENTRIES - root
}

// Whether the files of two trees have too many bytes together.
fn are_too_large(root: &[(Path, Entry<Held>)], lower: &[(Path, Entry<Held>)]) -> bool
    ensures { IsTrue result ↔ (most_bytes < all_bytes root.now + all_bytes lower.now) }
{
    match bytes_left(MOST_HOST_BYTES, root) {
        None => true,
        Some(left) => bytes_left(left, lower).is_none(),
    }
}

// How many of so many bytes the files leave; `None` exactly where they have more.
fn bytes_left(most: u64, pairs: &[(Path, Entry<Held>)]) -> Option<u64>
    ensures { SomeIff result (all_bytes pairs.now ≤ most) (most - all_bytes pairs.now) }
{
    let mut left = most;
    'pairs: for pair in pairs {
        match left.checked_sub(bytes_of(&pair.1)) {
            Some(rest) => left = rest,
            None => return None,
        }
    }
    Some(left)
}
