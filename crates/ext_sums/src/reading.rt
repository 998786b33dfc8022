ghost use Rattle.std.specs.Prelude.{◌≡◌, IfOk};
ghost use Rattle.ext_sums.specs.Manifest.{ReadsSums};
ghost use Rattle.ext_sums.specs.Merging.{numbered_entry};
ghost use Rattle.ext_sums.specs.Reading.{AreRead};

use crate::entry::entry_of;
use crate::merging::{Numbered, merged};
use crate::sorting::sorted;
use crate::sums::{Listed, Sums};
use ext_lines::{allocated, next_text_line};
use ext_text::{Digest, OutOfMemory, Text};
use std::alloc::Global;
use thiserror::Error;

/// Why bytes are no manifest.
#[derive(Clone, Copy, Debug, PartialEq, Eq, Error)]
pub enum SumsErr {
    /// An allocation failed.
    #[error("out of memory")]
    OutOfMemory,
    /// A line is faulty.
    #[error("line {line} of the manifest is faulty")]
    BadManifest {
        /// The first line that is, counted from 1.
        line: u64,
    },
}

impl From<OutOfMemory> for SumsErr {
    ghost use Rattle.std.specs.Prelude.{◌≡◌};
    ghost use Rattle.ext_sums.specs.declared.reading.SumsErr.TheVariants as errors;

    ghost from_gives = { λ _ e. e ≡ errors.OutOfMemory };

    fn from(_failed: OutOfMemory) -> SumsErr {
        SumsErr::OutOfMemory
    }
}

// The entries of a text up to the first line that is none, and the number of that line.
#[derive(Drop)]
struct Read {
    lines: Vec<Numbered>,
    stop: Option<u64>,
}

/// What a manifest lists. Its lines end at newlines, the last one perhaps not. Each has 64 hexadecimal digits of either
/// case, a space, a second space or `*`, and the name, which is the rest of the line. A name may be listed twice with one
/// digest. The empty text lists nothing.
///
/// The lines are sha256sum(1)'s. That an empty line, a comment and an escaped name are faults is this project's own.
///
/// # Errors
/// - `BadManifest` with the first line, counted from 1, that is no such line, or whose name has another digest before it.
/// - `OutOfMemory`.
pub fn read_sums(alloc: Global, bytes: &[u8]) -> Result<Sums, SumsErr>
    ensures { ReadsSums bytes.now result }
{
    let read = read_lines(alloc, bytes)?;
    let merge = merged(alloc, sorted(read.lines)?)?;
    if let Some(line) = merge.conflict {
        return Err(SumsErr::BadManifest { line });
    }
    match read.stop {
        Some(line) => Err(SumsErr::BadManifest { line }),
        None => Ok(Sums::of(merge.listed)),
    }
}

// The entries up to the first line that is none.
fn read_lines(alloc: Global, bytes: &[u8]) -> Result<Read, OutOfMemory>
    ensures { IfOk result (λ read. AreRead bytes.now read.lines.items read.stop) }
{
    let mut lines = Vec::new(alloc);
    let mut rest = bytes;
    let mut number = 0;
    'lines: loop {
        let Some((line, after)) = next_text_line(rest) else {
            return Ok(Read { lines, stop: None });
        };
        number += 1;
        let Some((name, digest)) = entry_of(line) else {
            let stop = Some(number);
            return Ok(Read { lines, stop });
        };
        allocated(lines.push(numbered(alloc, number, name, digest)?))?;
        rest = after;
    }
}

// The entry of a line with its number.
fn numbered(alloc: Global, line: u64, name: &[u8], digest: Digest) -> Result<Numbered, OutOfMemory>
    ensures { IfOk result (λ each. (numbered_entry each ≡ (name.now, digest.0)) × (each.line ≡ line)) }
{
    let name = Text::from_bytes(alloc, name)?;
    Ok(Numbered {
        key: 0,
        listed: Listed { name, digest },
        line,
    })
}
