// The two loops over a stream: reading a source to its end, and writing all of a text.
ghost use Rattle.std.specs.Prelude.{◌≡◌, ℕ, ◌+◌, ◌^◌, ◌<◌, ◌≤◌, ◌++◌, List, length, vec_len, OnOk, OnErr, IfOk, IfErr};
ghost use Rattle.std.specs.Io.KnownBytes.{Appends, Consumes, IsAtEnd};
ghost use Rattle.ext_text.specs.Causes.{HasCause};
ghost use Rattle.ext_io.specs.Whole.{ReadsAll, Stopped, PieceStopped, AppendsProperPrefix};

use crate::failed::Failed;
use crate::pieces::{PIECE, append, zeros};
use crate::sink::Sink;
use crate::source::Source;
use ext_text::{OutOfMemory, Text};
use std::alloc::Global;
use thiserror::Error;

/// Why a source was not read to its end.
#[derive(Clone, Copy, Debug, PartialEq, Eq, Error)]
pub enum ReadErr {
    /// An allocation failed.
    #[error("out of memory")]
    OutOfMemory,
    /// The source failed.
    #[error("the source failed")]
    Failed,
    /// The source has more bytes than may be taken.
    #[error("the input is too long")]
    TooLong,
}

impl From<OutOfMemory> for ReadErr {
    ghost use Rattle.std.specs.Prelude.{◌≡◌};
    ghost use Rattle.ext_io.specs.declared.whole.ReadErr.TheVariants as errors;

    ghost from_gives = { λ _ e. e ≡ errors.OutOfMemory };

    fn from(_refused: OutOfMemory) -> ReadErr {
        ReadErr::OutOfMemory
    }
}

impl From<Failed> for ReadErr {
    ghost use Rattle.std.specs.Prelude.{◌≡◌};
    ghost use Rattle.ext_io.specs.declared.whole.ReadErr.TheVariants as errors;

    ghost from_gives = { λ _ e. e ≡ errors.Failed };

    fn from(_failed: Failed) -> ReadErr {
        ReadErr::Failed
    }
}

/// Reads a source to its end. At most `most` bytes are taken as a text, and at most one byte more is read, which shows
/// that there are too many.
///
/// # Errors
/// Out of memory, a source that failed, and a source of more than `most` bytes. The bytes that were read by then are
/// gone from the source: at most `most` where it failed, exactly one more where it is too long.
pub fn read_to_end<S: Source>(alloc: Global, source: &mut S, most: usize) -> Result<Text, ReadErr>
    requires { most < 2 ^ 32 }
    ensures ok { IfOk result (ReadsAll (S.state source.old) (S.state source.new) most) }
    ensures err { IfErr result (Stopped (S.state source.old) (S.state source.new) most) }
    ensures count { (S.state source.old).faults ≤ (S.state source.new).faults }
{
    let mut buffer = zeros(alloc, PIECE.min(most + 1))?;
    let mut bytes = Vec::new(alloc);
    'pieces: while bytes.len() <= most {
        let room = PIECE.min(most + 1 - bytes.len());
        let count = read_piece(source, &mut buffer[..room], &mut bytes)?;
        if count == 0 {
            return Ok(Text::from_vec(bytes));
        }
    }
    Err(ReadErr::TooLong)
}

// Reads once, adds what was read to the bytes, and gives how much that was.
fn read_piece<S: Source>(
    source: &mut S,
    buffer: &mut [u8],
    bytes: &mut Vec<u8>,
) -> Result<usize, ReadErr>
    requires { 0 < length buffer.old }
    ensures ok { IfOk result (λ n. (piece : List ℕ) × (bytes.new.items ≡ bytes.old.items ++ piece)
        × (length piece ≡ n) × (n ≤ length buffer.old)
        × Consumes (S.state source.old).left (S.state source.new).left piece) }
    ensures end { IfOk result (λ n. n ≡ 0 → IsAtEnd (S.state source.new).left) }
    ensures err { IfErr result (PieceStopped (S.state source.old) (S.state source.new) (length buffer.old)) }
    ensures count { (S.state source.old).faults ≤ (S.state source.new).faults }
{
    let count = source.read(buffer)?;
    append(bytes, &buffer[..count])?;
    Ok(count)
}

/// Writes all the bytes.
///
/// # Errors
/// The sink failed. Where it tells what was written, a proper prefix of the bytes was.
pub fn write_all<K: Sink>(sink: &mut K, bytes: &[u8]) -> Result<(), Failed>
    ensures ok { OnOk result (Appends (K.state sink.old).written (K.state sink.new).written bytes.now) }
    ensures failed { OnErr result (AppendsProperPrefix (K.state sink.old) (K.state sink.new) bytes.now) }
    ensures count { (K.state sink.old).faults ≤ (K.state sink.new).faults }
    ensures cause { HasCause result (K.state sink.old).faults (K.state sink.new).faults }
{
    let mut at = 0;
    'pieces: while at < bytes.len() {
        at += sink.write(&bytes[at..])?;
    }
    Ok(())
}
