// An index is read.
ghost use Rattle.std.specs.Prelude.{◌≡◌};
ghost use Rattle.ext_index.specs.Reading.{ReadsIndex};
ghost use Rattle.ext_index.specs.ValidIndex.{text_number};

use crate::wrong::wrong_line;
use ext_host::Host;
use ext_index_lines::TextNumber;
use ext_index_reader::{IndexErr, read_lines};
use std::alloc::Global;

/// The most bytes of an index.
pub const MOST_INDEX_BYTES: usize = 134_217_728;

/// The host of an index of a generation, and the number of the text, 1, 2 or 3. Every file of the host is kept.
///
/// The bytes are the index of a valid host whose files are kept in that generation or in ones before it, and nothing else. A
/// text with number 1 is one with the default hierarchies and without past trees, and a text with number 1 or 2 one without
/// owners and capabilities. The format is this project's own.
///
/// # Errors
/// `Broken` exactly where the bytes are no such index, with the first line that breaks a rule, counted from 1. An index of
/// more than 134,217,728 bytes is faulty at its first line. A missing line is counted where it should stand, and a line too
/// many where it stands. The items of the kept manifests are compared with the base only where every other rule holds. A
/// manifest that says other than the base has is faulty at its first line. `OutOfMemory` may come at any time.
pub fn read_index(alloc: Global, bytes: &[u8], generation: u32) -> Result<(Host, u32), IndexErr>
    ensures { ReadsIndex generation bytes.now result }
{
    if bytes.len() > MOST_INDEX_BYTES {
        return Err(IndexErr::Broken { line: 1 });
    }
    let said = read_lines(alloc, bytes, generation)?;
    match wrong_line(said.text, &said.host) {
        None => Ok((said.host, text_number(said.text))),
        Some(line) => Err(IndexErr::Broken { line }),
    }
}

// The number of a text.
fn text_number(number: TextNumber) -> u32
    ensures { result ≡ text_number number }
{
    match number {
        TextNumber::One => 1,
        TextNumber::Later { owners } => if owners { 3 } else { 2 },
    }
}
