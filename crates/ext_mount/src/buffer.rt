// Bytes that wait to be written.
ghost use Rattle.std.specs.Prelude.{◌≡◌, ◌+◌, ◌-◌, ◌<◌, ◌≤◌, ◌↔◌, ◌++◌, [], length, take, drop, min, IfOk, IsTrue};
ghost use Rattle.ext_io.specs.Pieces.{most_of_piece};

use ext_io::{PIECE, zeros};
use ext_text::OutOfMemory;
use std::alloc::Global;
use std::marker::Model;

/// Bytes that wait to be written: at most a piece of them. Contracts see them as a list.
#[derive(Drop)]
pub struct Buffer {
    bytes: Vec<u8>,
    used: usize,
}

impl Model for Buffer {
    ghost use Rattle.std.specs.Prelude.{◌≡◌, ◌≤◌, ℕ, List, length, take};
    ghost use Rattle.ext_io.specs.Pieces.{most_of_piece};

    ghost Value = { List ℕ };

    ghost view = { λ b. take b.used b.bytes.items };

    ghost invariant = { λ b. (length b.bytes.items ≡ most_of_piece) × (b.used ≤ length b.bytes.items) };
}

impl Buffer {
    /// An empty buffer, with room for a piece.
    ///
    /// # Errors
    /// `OutOfMemory` alone.
    pub fn new(alloc: Global) -> Result<Buffer, OutOfMemory>
        ensures { IfOk result (λ buffer. buffer ≡ []) }
    {
        let bytes = zeros(alloc, PIECE)?;
        Ok(Buffer { bytes, used: 0 })
    }

    /// The bytes that wait.
    pub fn bytes(&self) -> &[u8]
        ensures { result.now ≡ self.now }
    {
        &self.bytes[..self.used]
    }

    /// Whether there is room for more.
    pub fn has_room(&self) -> bool
        ensures { IsTrue result ↔ (length self.now < most_of_piece) }
    {
        self.used < PIECE
    }

    /// Takes a prefix of the bytes, as much as there is room for, and gives how many those are.
    pub fn fill(&mut self, bytes: &[u8]) -> usize
        ensures count { result ≡ min (most_of_piece - length self.old) (length bytes.now) }
        ensures taken { self.new ≡ self.old ++ take result bytes.now }
    {
        let count = copy_front(&mut self.bytes[self.used..], bytes);
        self.used += count;
        count
    }

    /// Forgets all bytes.
    pub fn clear(&mut self)
        ensures { self.new ≡ [] }
    {
        self.used = 0;
    }
}

// Copies a prefix of the bytes to the beginning of the room, as many as have room, and gives how many.
fn copy_front(room: &mut [u8], bytes: &[u8]) -> usize
    ensures count { result ≡ min (length room.old) (length bytes.now) }
    ensures moved { take result room.new ≡ take result bytes.now }
{
    let count = room.len().min(bytes.len());
    room[..count].copy_from_slice(&bytes[..count]);
    count
}
