// The lines of entries, which both trees have.
ghost use Rattle.std.specs.Prelude.{◌≡◌, ◌+◌, ◌<◌, ◌≤◌, ◌↔◌, IfOk, IsTrue};
ghost use Rattle.ext_tree.specs.Tree.{most_entries};
ghost use Rattle.ext_host.specs.Valid.{bytes_of, most_bytes};
ghost use Rattle.ext_index_lines.specs.Homes.{kept_entry};
ghost use Rattle.ext_index_lines.specs.Lines.{may_tell};
ghost use Rattle.ext_index_reader.specs.Step.{CountsEntry, EntersLine, HasRoom, IsUpTo};

use crate::state::SoFar;
use ext_host::{Held, MOST_HOST_BYTES};
use ext_index_lines::{Homed, kept_entry};
use ext_lines::OutOfMemory;
use ext_text::Path;
use ext_tree::{Entry, MOST_ENTRIES, entry_of_line};
use std::alloc::Global;

/// The entry of a line, as the host has it, whose home and bytes are counted; `None` where none may stand there.
///
/// # Errors
/// Out of memory alone. What was counted is then of no use, as where the answer is `None`.
pub(crate) fn entered(
    alloc: Global,
    generation: u32,
    so_far: &mut SoFar,
    line: &[u8],
) -> Result<Option<(Path, Entry<Held>)>, OutOfMemory>
    ensures { IfOk result (EntersLine generation so_far.old so_far.new line.now) }
{
    match entry_of_line::<Homed>(alloc, line)? {
        None => Ok(None),
        Some((path, entry)) => {
            if !may_come(generation, so_far, &entry) {
                return Ok(None);
            }
            let agrees = count(so_far, &entry)?;
            if !agrees {
                return Ok(None);
            }
            Ok(Some((path, kept_entry(entry))))
        }
    }
}

// Counts the home and the bytes of an entry's file; says whether it has the stamp of its home.
fn count(so_far: &mut SoFar, entry: &Entry<Homed>) -> Result<bool, OutOfMemory>
    requires { HasRoom so_far.old entry.now }
    ensures { IfOk result (CountsEntry so_far.old so_far.new entry.now) }
{
    if !so_far.homes.note(entry)? {
        return Ok(false);
    }
    so_far.parts.bytes += size_of(entry);
    Ok(true)
}

// Whether an entry may come, whatever stamp its home has.
fn may_come(generation: u32, so_far: &SoFar, entry: &Entry<Homed>) -> bool
    ensures { IsTrue result ↔ (IsTrue (may_tell so_far.now.text entry.now) × IsUpTo generation entry.now × HasRoom so_far.now entry.now) }
{
    so_far.text.may_tell(entry) && is_up_to(generation, entry) && has_room(so_far, entry)
}

// Whether the file, if it is one, is kept in this generation or in one before.
fn is_up_to(generation: u32, entry: &Entry<Homed>) -> bool
    ensures { IsTrue result ↔ IsUpTo generation entry.now }
{
    match entry {
        Entry::File(_, file) => file.home.generation <= generation,
        Entry::Dir(_) | Entry::Opaque(_) | Entry::Link(_, _) | Entry::Hide => true,
    }
}

// Whether there is room for one more entry in both trees.
fn has_room(so_far: &SoFar, entry: &Entry<Homed>) -> bool
    ensures { IsTrue result ↔ HasRoom so_far.now entry.now }
{
    let parts = &so_far.parts;
    is_below_most(parts.root.len(), parts.lower.len()) && fits(parts.bytes, size_of(entry))
}

// Whether both trees have fewer entries than the most.
fn is_below_most(root: usize, lower: usize) -> bool
    ensures { IsTrue result ↔ (root + lower < most_entries) }
{
    root < MOST_ENTRIES && lower < MOST_ENTRIES - root
}

// Whether so many more bytes are within the limit.
fn fits(bytes: u64, more: u64) -> bool
    ensures { IsTrue result ↔ (bytes + more ≤ most_bytes) }
{
    bytes <= MOST_HOST_BYTES && more <= MOST_HOST_BYTES - bytes
}

// The bytes of an entry's file.
fn size_of(entry: &Entry<Homed>) -> u64
    ensures { result ≡ bytes_of (kept_entry entry.now) }
{
    match entry {
        Entry::File(_, file) => file.stamp.size,
        Entry::Dir(_) | Entry::Opaque(_) | Entry::Link(_, _) | Entry::Hide => 0,
    }
}
