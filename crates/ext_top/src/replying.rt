// The reply of a command is written.
ghost use Rattle.std.specs.Prelude.{◌≡◌, ◌≢◌, ◌⊎◌, ◌+◌, ◌<◌, ◌≤◌, true, length, take, IfErr, IfOk};
ghost use Rattle.ext_disk.specs.Since.{Rests};
ghost use Rattle.ext_host.specs.Shelf.{missing};
ghost use Rattle.ext_store_files.specs.HeldFiles.{body_told, is_served, IsNextPiece, PieceCause};
ghost use Rattle.ext_top.specs.Applying.{IsServedReply};
ghost use Rattle.ext_top.specs.Exits.{usage_line};
ghost use Rattle.ext_top.specs.Working.{refused_by};
ghost use Rattle.ext_top.specs.Replying.{FileCause, ReplyCause, WritesBytes, WritesFile, WritesMany, WritesPiece, WritesReply, WritesUsage};

use crate::applied::Reply;
use crate::stop::Stop;
use ext_cmd::{Refusal, refusal_text};
use ext_disk::Disk;
use ext_host::{Held, ShelfErr};
use ext_io::{PIECE, Sink, write_all, zeros};
use ext_lines::append_decimal;
use ext_store_files::{next_piece, piece};
use ext_text::{OutOfMemory, Text};
use std::alloc::Global;

/// Writes a reply, and gives the refusal that it is the line of, if it is one.
///
/// # Errors
/// - The sink failed, and a proper prefix of the reply was written.
/// - Of a file, a fault of the disk, or no memory, and a prefix was written.
/// - The file ends before its listed size.
pub(crate) fn write_reply<K: Sink, D: Disk>(
    alloc: Global,
    reply: Reply,
    sink: &mut K,
    disk: &mut D,
) -> Result<Option<Refusal>, Stop>
    requires { IsServedReply reply }
    ensures rests { Rests (D.state disk.old) (D.state disk.new) }
    ensures writes { WritesReply reply (D.state disk.old) (K.state sink.old) (K.state sink.new) result }
    ensures refusal { IfOk result (λ refusal. refusal ≡ refused_by reply) }
    ensures count { (K.state sink.old).faults ≤ (K.state sink.new).faults }
    ensures cause { IfErr result (ReplyCause reply (K.state sink.old) (K.state sink.new) (D.state disk.old) (D.state disk.new)) }
{
    match reply {
        Reply::Text(text) => {
            write_bytes(sink, text.bytes())?;
            Ok(None)
        }
        Reply::File(held) => {
            write_file(alloc, &held, sink, disk)?;
            Ok(None)
        }
        Reply::Refused(refusal) => {
            let line = refusal_text(alloc, &refusal)?;
            write_bytes(sink, line.bytes())?;
            Ok(Some(refusal))
        }
    }
}

/// Writes the reply to words outside the grammar, which have their first fault at this place.
///
/// # Errors
/// The sink failed, and a proper prefix of the reply was written; or there was no memory for it.
pub(crate) fn write_usage<K: Sink>(alloc: Global, place: u64, sink: &mut K) -> Result<(), Stop>
    ensures writes { WritesUsage place (K.state sink.old) (K.state sink.new) result }
    ensures count { (K.state sink.old).faults ≤ (K.state sink.new).faults }
{
    let line = usage_text(alloc, place)?;
    write_bytes(sink, line.bytes())
}

// The reply to words outside the grammar.
fn usage_text(alloc: Global, place: u64) -> Result<Text, OutOfMemory>
    ensures { IfOk result (λ text. text ≡ usage_line place) }
{
    let mut text = Vec::from_slice(alloc, b"usage ")?;
    append_decimal(&mut text, place)?;
    text.push(b'\n')?;
    Ok(Text::from_vec(text))
}

// Writes bytes that are here.
fn write_bytes<K: Sink>(sink: &mut K, bytes: &[u8]) -> Result<(), Stop>
    ensures writes { WritesBytes bytes.now (K.state sink.old) (K.state sink.new) result }
    ensures count { (K.state sink.old).faults ≤ (K.state sink.new).faults }
{
    match write_all(sink, bytes) {
        Ok(()) => Ok(()),
        Err(_) => Err(Stop::WriteFault),
    }
}

// Writes the bytes of a file, in pieces.
fn write_file<K: Sink, D: Disk>(
    alloc: Global,
    held: &Held,
    sink: &mut K,
    disk: &mut D,
) -> Result<(), Stop>
    requires { is_served held.now.body ≡ true }
    ensures rests { Rests (D.state disk.old) (D.state disk.new) }
    ensures writes { WritesFile (body_told (D.state disk.old) held.now.body) held.now.stamp.size (K.state sink.old)
        (K.state sink.new) result }
    ensures many { IfOk result (λ done. WritesMany held.now.stamp.size (K.state sink.old) (K.state sink.new)) }
    ensures count { (K.state sink.old).faults ≤ (K.state sink.new).faults }
    ensures cause { IfErr result (FileCause held.now (K.state sink.old) (K.state sink.new) (D.state disk.old) (D.state disk.new)) }
{
    let mut buffer = zeros(alloc, PIECE)?;
    write_pieces(alloc, held, sink, disk, &mut buffer)
}

// Writes the bytes of a file, each time as many as the buffer has room for.
fn write_pieces<K: Sink, D: Disk>(
    alloc: Global,
    held: &Held,
    sink: &mut K,
    disk: &mut D,
    buffer: &mut [u8],
) -> Result<(), Stop>
    requires served { is_served held.now.body ≡ true }
    requires room { 0 < length buffer.old }
    ensures rests { Rests (D.state disk.old) (D.state disk.new) }
    ensures writes { WritesFile (body_told (D.state disk.old) held.now.body) held.now.stamp.size (K.state sink.old)
        (K.state sink.new) result }
    ensures many { IfOk result (λ done. WritesMany held.now.stamp.size (K.state sink.old) (K.state sink.new)) }
    ensures count { (K.state sink.old).faults ≤ (K.state sink.new).faults }
    ensures cause { IfErr result (FileCause held.now (K.state sink.old) (K.state sink.new) (D.state disk.old) (D.state disk.new)) }
{
    let size = held.stamp().size;
    let mut at = 0;
    'pieces: while at < size {
        at += write_piece(alloc, held, at, sink, disk, buffer)?;
    }
    Ok(())
}

// Writes bytes of a file from the byte `at` on, and gives how many.
fn write_piece<K: Sink, D: Disk>(
    alloc: Global,
    held: &Held,
    at: u64,
    sink: &mut K,
    disk: &mut D,
    buffer: &mut [u8],
) -> Result<u64, Stop>
    requires served { is_served held.now.body ≡ true }
    requires room { 0 < length buffer.old }
    requires place { at < held.now.stamp.size }
    requires stands { (at ≡ 0) ⊎ (body_told (D.state disk.old) held.now.body ≢ missing) }
    ensures within { IfOk result (λ n. (0 < n) × (at + n ≤ held.now.stamp.size)) }
    ensures stands { IfOk result (λ n. body_told (D.state disk.old) held.now.body ≢ missing) }
    ensures rests { Rests (D.state disk.old) (D.state disk.new) }
    ensures writes { WritesPiece (body_told (D.state disk.old) held.now.body) held.now.stamp.size at (K.state sink.old)
        (K.state sink.new) result }
    ensures many { IfOk result (λ n. WritesMany n (K.state sink.old) (K.state sink.new)) }
    ensures count { (K.state sink.old).faults ≤ (K.state sink.new).faults }
    ensures cause { IfErr result (FileCause held.now (K.state sink.old) (K.state sink.new) (D.state disk.old) (D.state disk.new)) }
{
    let count = read_piece(alloc, disk, held, at, buffer)?;
    write_bytes(sink, &buffer[..count])?;
    Ok(count as u64)
}

// Reads bytes of a file from the byte `at` on. For the first of them alone the disk is asked what stands there.
fn read_piece<D: Disk>(
    alloc: Global,
    disk: &mut D,
    held: &Held,
    at: u64,
    buffer: &mut [u8],
) -> Result<usize, ShelfErr>
    requires served { is_served held.now.body ≡ true }
    requires room { 0 < length buffer.old }
    requires place { at < held.now.stamp.size }
    requires stands { (at ≡ 0) ⊎ (body_told (D.state disk.old) held.now.body ≢ missing) }
    ensures within { IfOk result (λ n. (0 < n) × (n ≤ length buffer.new) × (at + n ≤ held.now.stamp.size)) }
    ensures next { IfOk result (λ n. IsNextPiece (body_told (D.state disk.old) held.now.body) at (take n buffer.new)) }
    ensures rests { Rests (D.state disk.old) (D.state disk.new) }
    ensures cause { IfErr result (PieceCause (D.state disk.old).faults (D.state disk.new).faults
        (body_told (D.state disk.old) held.now.body) held.now at) }
{
    if at == 0 {
        piece(alloc, disk, held, at, buffer)
    } else {
        next_piece(alloc, disk, held, at, buffer)
    }
}
