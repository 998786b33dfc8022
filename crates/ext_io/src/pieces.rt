//! Pieces: how much one call of a device moves, and the buffers that it moves it through.
ghost use Rattle.std.specs.Prelude.{◌≡◌, ◌↔◌, ◌+◌, ◌++◌, min, length, IfOk, IsTrue, OnOk};
ghost use Rattle.ext_io.specs.Pieces.{most_of_piece};

use ext_text::OutOfMemory;
use std::alloc::Global;

/// The most bytes that one call of a device is asked for, or to take.
pub const PIECE: usize = 65_536;

/// The room for so many bytes and one more, which shows whether there are more, or for a piece.
pub fn room_for(left: usize) -> usize
    ensures { result ≡ min most_of_piece (left + 1) }
{
    if left < PIECE { left + 1 } else { PIECE }
}

/// A buffer of so many bytes.
///
/// # Errors
/// `OutOfMemory` alone.
pub fn zeros(alloc: Global, count: usize) -> Result<Vec<u8>, OutOfMemory>
    ensures { IfOk result (λ buffer. length buffer.items ≡ count) }
{
    Ok(vec![in alloc; 0u8; count]?)
}

/// Adds a piece at the end of bytes.
///
/// # Errors
/// `OutOfMemory` alone.
pub fn append(bytes: &mut Vec<u8>, piece: &[u8]) -> Result<(), OutOfMemory>
    ensures { OnOk result (bytes.new.items ≡ bytes.old.items ++ piece.now) }
{
    bytes.extend_from_slice(piece)?;
    Ok(())
}

/// Whether two pieces have the same bytes.
pub fn are_equal(ours: &[u8], theirs: &[u8]) -> bool
    ensures { IsTrue result ↔ (ours.now ≡ theirs.now) }
{
    ours == theirs
}
