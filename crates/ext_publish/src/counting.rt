// How much is published.
ghost use Rattle.std.specs.Prelude.{◌≡◌, ◌+◌, IfErr, IfOk};
ghost use Rattle.ext_publish.specs.Attempting.{IsMadeOf, IsWithEntry};
ghost use Rattle.ext_published.specs.declared.payload.Payload.TheVariants as payloads;
ghost use Rattle.ext_publish.specs.declared.stop.Stop.TheVariants as stops;

use crate::stop::Stop;
use ext_host::Held;
use ext_published::Payload;
use ext_text::Path;
use ext_tree::Entry;

/// What was published: how many files, and how many bytes they have.
#[derive(Clone, Copy, PartialEq, Eq)]
pub(crate) struct Made {
    /// The number of the files.
    pub(crate) files: u64,
    /// The number of their bytes.
    pub(crate) bytes: u64,
}

/// How many files are published, and how many bytes they have. Were these more than a number has room for, there would be no
/// memory for what is to be done with them.
pub(crate) fn count_of(payload: &Payload) -> Result<Made, Stop>
    ensures made { IfOk result (λ made. IsMadeOf made payload.now) }
    ensures err { IfErr result (λ e. e ≡ stops.OutOfMemory) }
{
    match payload {
        Payload::File(held) => Ok(Made {
            files: 1,
            bytes: held.stamp().size,
        }),
        Payload::Directory(tree) => count_pairs(tree.pairs()),
    }
}

// The same of a directory's entries.
fn count_pairs(pairs: &[(Path, Entry<Held>)]) -> Result<Made, Stop>
    ensures made { IfOk result (λ made. IsMadeOf made (payloads.Directory pairs.now)) }
    ensures err { IfErr result (λ e. e ≡ stops.OutOfMemory) }
{
    let mut made = Made { files: 0, bytes: 0 };
    'pairs: for pair in pairs {
        made = with_entry(made, &pair.1)?;
    }
    Ok(made)
}

// With an entry more.
fn with_entry(made: Made, entry: &Entry<Held>) -> Result<Made, Stop>
    ensures more { IfOk result (IsWithEntry made entry.now) }
    ensures err { IfErr result (λ e. e ≡ stops.OutOfMemory) }
{
    match entry {
        Entry::File(_, held) => with_file(made, held),
        _ => Ok(made),
    }
}

// With a file more.
fn with_file(made: Made, held: &Held) -> Result<Made, Stop>
    ensures more { IfOk result (λ more. (more.files ≡ made.files + 1) × (more.bytes ≡ made.bytes + held.now.stamp.size)) }
    ensures err { IfErr result (λ e. e ≡ stops.OutOfMemory) }
{
    let files = made.files.checked_add(1);
    let bytes = made.bytes.checked_add(held.stamp().size);
    match (files, bytes) {
        (Some(files), Some(bytes)) => Ok(Made { files, bytes }),
        _ => Err(Stop::OutOfMemory),
    }
}
