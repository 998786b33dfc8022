// The bytes of a file of a disk in memory, held in the pieces in which they were appended.
ghost use Rattle.std.specs.Prelude.{◌≡◌, ◌+◌, ◌<◌, ◌≤◌, ◌++◌, [], length, take, drop, IfOk, OnOk, OnErr};
ghost use Rattle.ext_io.specs.Device.{IsReadAt};
ghost use Rattle.ext_disk.specs.Pieces.{AreLaid, joined};

use ext_io::read_at;
use ext_text::{OutOfMemory, Text};
use std::alloc::Global;
use std::marker::Model;
use std::rc::Rc;

/// Bytes that are held once, however many hold them: in a file, and in the past of a disk.
#[derive(Drop)]
pub(crate) struct Piece {
    text: Rc<Text>,
}

impl Model for Piece {
    ghost use Rattle.std.specs.Prelude.{ℕ, List};

    ghost Value = { List ℕ };

    ghost view = { λ p. p.text.value };
}

impl Piece {
    /// A piece of these bytes, which are copied.
    pub(crate) fn from_bytes(alloc: Global, bytes: &[u8]) -> Result<Piece, OutOfMemory>
        ensures { IfOk result (λ piece. piece ≡ bytes.now) }
    {
        let text = Text::from_bytes(alloc, bytes)?;
        Ok(Piece {
            text: Rc::new(alloc, text)?,
        })
    }

    /// The same bytes, which are not copied.
    pub(crate) fn share(&self) -> Result<Piece, OutOfMemory>
        ensures { IfOk result (λ piece. piece ≡ self.now) }
    {
        Ok(Piece {
            text: self.text.clone()?,
        })
    }

    /// The bytes.
    pub(crate) fn bytes(&self) -> &[u8]
        ensures { result.now ≡ self.now }
    {
        self.text.as_ref().bytes()
    }
}

/// A piece of a file, and how many bytes of the file stand before it.
#[derive(Drop)]
pub(crate) struct Part {
    pub(crate) start: usize,
    pub(crate) piece: Piece,
}

/// The bytes of a file: one piece after another. An append adds one and touches no other, a copy shares them all, and a
/// byte is found by a search for its piece.
#[derive(Drop)]
pub(crate) struct Pieces {
    parts: Vec<Part>,
    size: usize,
}

impl Model for Pieces {
    ghost use Rattle.std.specs.Prelude.{ℕ, List};
    ghost use Rattle.ext_disk.specs.Pieces.{IsLaid, joined};

    ghost Value = { List ℕ };

    ghost view = { λ p. joined p.parts.items };

    ghost invariant = { λ p. IsLaid p.parts.items p.size };
}

impl Pieces {
    /// No bytes.
    pub(crate) fn new(alloc: Global) -> Pieces
        ensures { result ≡ [] }
    {
        Pieces {
            parts: Vec::new(alloc),
            size: 0,
        }
    }

    /// How many bytes they are.
    pub(crate) fn size(&self) -> u64
        ensures { result ≡ length self.now }
    {
        self.size as u64
    }

    /// Adds a piece at the end, which is not copied. At an error nothing has changed.
    pub(crate) fn append(&mut self, piece: &Piece) -> Result<(), OutOfMemory>
        ensures ok { OnOk result (self.new ≡ self.old ++ piece.now) }
        ensures err { OnErr result (self.new ≡ self.old) }
    {
        // No memory holds more bytes than a number counts.
        let Some(size) = self.size.checked_add(piece.bytes().len()) else {
            return Err(OutOfMemory);
        };
        let part = Part {
            start: self.size,
            piece: piece.share()?,
        };
        self.parts.push(part)?;
        self.size = size;
        Ok(())
    }

    /// Equal bytes, which are not copied.
    pub(crate) fn copy(&self) -> Result<Pieces, OutOfMemory>
        ensures { IfOk result (λ copy. copy ≡ self.now) }
    {
        let mut parts = Vec::with_capacity(*self.parts.allocator(), self.parts.len())?;
        share_parts(&mut parts, &self.parts)?;
        Ok(Pieces {
            parts,
            size: self.size,
        })
    }

    /// Copies bytes, from the byte `at` on, to the beginning of the buffer, which is not empty, and gives how many.
    pub(crate) fn read(&self, at: u64, buf: &mut [u8]) -> usize
        requires { 0 < length buf.old }
        ensures within { result ≤ length buf.new }
        ensures read { IsReadAt self.now at buf.new result }
    {
        let (first, passed) = part_at(&self.parts, at as usize);
        read_parts(&self.parts[first..], passed, buf)
    }
}

// Adds the pieces of the parts, which are not copied.
fn share_parts(shared: &mut Vec<Part>, parts: &[Part]) -> Result<(), OutOfMemory>
    ensures { OnOk result (shared.new.items ≡ shared.old.items ++ parts.now) }
{
    'parts: for part in parts {
        shared.push(Part {
            start: part.start,
            piece: part.piece.share()?,
        })?;
    }
    Ok(())
}

// The index of the part that has the byte `at` of the file, or of the last one where none has, and how many bytes of that
// part come before it.
fn part_at(parts: &[Part], at: usize) -> (usize, usize)
    requires { AreLaid 0 parts.now }
    ensures within { result.0 ≤ length parts.now }
    ensures same { drop at (joined parts.now) ≡ drop result.1 (joined (drop result.0 parts.now)) }
{
    let last = parts
        .partition_point(|part| part.start <= at)
        .saturating_sub(1);
    match parts.get(last) {
        Some(part) if part.start <= at => (last, at - part.start),
        _ => (0, at),
    }
}

// Copies bytes of the parts, but for so many of the first ones, to the beginning of the buffer until it is full, and gives
// how many.
fn read_parts(parts: &[Part], passed: usize, buf: &mut [u8]) -> usize
    requires { 0 < length buf.old }
    ensures within { result ≤ length buf.new }
    ensures read { IsReadAt (joined parts.now) passed buf.new result }
{
    let mut from = passed;
    let mut count = 0;
    'parts: for part in parts {
        if count == buf.len() {
            return count;
        }
        let bytes = part.piece.bytes();
        let more = read_after(bytes, from, buf, count);
        count += more;
        if more < bytes.len().saturating_sub(from) {
            return count;
        }
        from = from.saturating_sub(bytes.len());
    }
    count
}

// Copies bytes, from the byte `from` on, to the buffer after its first so many, and gives how many.
fn read_after(bytes: &[u8], from: usize, buf: &mut [u8], count: usize) -> usize
    requires { count < length buf.old }
    ensures within { count + result ≤ length buf.new }
    ensures read { take count buf.old ++ drop from bytes.now ≡ take (count + result) buf.new ++ drop (from + result) bytes.now }
    ensures end { result ≡ 0 → length bytes.now ≤ from }
{
    read_at(bytes, from as u64, &mut buf[count..])
}
