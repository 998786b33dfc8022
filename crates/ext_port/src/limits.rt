// The limits of the coming host.
ghost use Rattle.std.specs.Prelude.{◌≡◌};
ghost use Rattle.ext_port.specs.Limits.{are_entries, file_or, first_limit, new_bytes, with_file};

use ext_added::{Attaching, has_services};
use ext_host::{Held, passed_limit};
use ext_text::{Path, Which};
use ext_tree::Entry;

// The most bytes of a file.
const MOST_FILE_BYTES: u64 = 1_073_741_824;

// The bytes of the new file that is made: of the drop-in that tells a service its image, where there is a service.
pub(crate) fn new_bytes(made: &Attaching) -> u64
    ensures { result ≡ new_bytes made.now }
{
    if has_services(made) {
        made.own.stamp().size
    } else {
        0
    }
}

// The first limit that is passed by the two trees of a host, in which a new file has so many bytes.
pub(crate) fn first_limit(
    size: u64,
    root: &[(Path, Entry<Held>)],
    lower: &[(Path, Entry<Held>)],
) -> Option<Which>
    ensures { result ≡ first_limit size root.now lower.now }
{
    with_file(size, passed_limit(root, lower))
}

// The same, by the limit of entries and bytes that is passed: a file's comes between both.
fn with_file(size: u64, passed: Option<Which>) -> Option<Which>
    ensures { result ≡ with_file size passed }
{
    if are_entries(passed) {
        passed
    } else {
        file_or(size, passed)
    }
}

// Whether it is that of entries.
fn are_entries(passed: Option<Which>) -> bool
    ensures { result ≡ are_entries passed }
{
    match passed {
        Some(Which::Entries) => true,
        Some(
            Which::Bytes
            | Which::File
            | Which::Path
            | Which::Text
            | Which::Index
            | Which::Generations,
        )
        | None => false,
    }
}

// The limit of a file, where it is passed.
fn file_or(size: u64, passed: Option<Which>) -> Option<Which>
    ensures { result ≡ file_or size passed }
{
    if size > MOST_FILE_BYTES {
        Some(Which::File)
    } else {
        passed
    }
}
