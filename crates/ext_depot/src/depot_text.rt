// A text of the depot, read whole.
ghost use Rattle.std.specs.Prelude.{◌≡◌, ℕ, ◌<◌, ◌≤◌, List, ◌++◌, length, IfOk, IfErr};
ghost use Rattle.ext_depot.specs.Depot.{IsKept};
ghost use Rattle.ext_depot.specs.DepotText.{HasFileAt, IsPieceOfFile, IsTextAt, ReadTextCause};

use crate::depot::Depot;
use crate::depot_err::DepotErr;
use ext_io::{PIECE, append, room_for, zeros};
use ext_text::{Path, Text};
use std::alloc::Global;

/// The most bytes of a text in the depot.
const MOST_TEXT: usize = 67_108_864;

/// What the depot has at a path where a text is looked for.
#[derive(Drop)]
pub enum DepotText {
    /// No file.
    Absent,
    /// A file of more than 67,108,864 bytes.
    TooLong,
    /// A file of these bytes.
    Whole(Text),
}

/// The file at a path of the depot, of at most 67,108,864 bytes, read in pieces of at most 65,536 bytes, and no further than
/// one byte past the limit.
///
/// # Errors
/// `Fault` only where the depot counted a fault, and `OutOfMemory`. No call changes what the depot has.
pub fn read_depot_text<P: Depot>(
    alloc: Global,
    depot: &mut P,
    path: &Path,
) -> Result<DepotText, DepotErr>
    ensures found { IfOk result (IsTextAt (P.state depot.old) path.now) }
    ensures kept { IsKept (P.state depot.old) (P.state depot.new) }
    ensures cause { IfErr result (ReadTextCause (P.state depot.old).faults (P.state depot.new).faults) }
{
    match depot.size(path)? {
        None => Ok(DepotText::Absent),
        Some(size) if size > MOST_TEXT as u64 => Ok(DepotText::TooLong),
        Some(_) => read_whole(alloc, depot, path),
    }
}

// The file at a path, whose size may be another than the depot told.
fn read_whole<P: Depot>(alloc: Global, depot: &mut P, path: &Path) -> Result<DepotText, DepotErr>
    requires { HasFileAt (P.state depot.old) path.now }
    ensures found { IfOk result (IsTextAt (P.state depot.old) path.now) }
    ensures kept { IsKept (P.state depot.old) (P.state depot.new) }
    ensures cause { IfErr result (ReadTextCause (P.state depot.old).faults (P.state depot.new).faults) }
{
    let mut buffer = zeros(alloc, PIECE)?;
    let mut bytes = Vec::new(alloc);
    'pieces: while bytes.len() <= MOST_TEXT {
        let room = room_for(MOST_TEXT - bytes.len());
        let count = read_piece(depot, path, &mut buffer[..room], &mut bytes)?;
        if count == 0 {
            return Ok(DepotText::Whole(Text::from_vec(bytes)));
        }
    }
    Ok(DepotText::TooLong)
}

// Reads once from where the bytes end, adds what was read to them, and gives how much that was.
fn read_piece<P: Depot>(
    depot: &mut P,
    path: &Path,
    buffer: &mut [u8],
    bytes: &mut Vec<u8>,
) -> Result<usize, DepotErr>
    requires room { 0 < length buffer.old }
    requires file { HasFileAt (P.state depot.old) path.now }
    ensures ok { IfOk result (λ n. (piece : List ℕ) × (bytes.new.items ≡ bytes.old.items ++ piece)
        × (length piece ≡ n) × (n ≤ length buffer.old)
        × IsPieceOfFile (P.state depot.old) path.now (length bytes.old.items) piece) }
    ensures kept { IsKept (P.state depot.old) (P.state depot.new) }
    ensures cause { IfErr result (ReadTextCause (P.state depot.old).faults (P.state depot.new).faults) }
{
    let count = depot.read(path, bytes.len() as u64, buffer)?;
    append(bytes, &buffer[..count])?;
    Ok(count)
}
