// Calls of std's readers and writers that are tried again where they were interrupted.
ghost use Rattle.std.specs.Prelude.{◌≡◌, ◌<◌, ◌≤◌, length, take, IfOk, OnErr};
ghost use Rattle.std.specs.Io.KnownBytes.{Appends, Consumes, IsAtEnd, Keeps};

use crate::failed::Failed;
use std::io::{ErrorKind, Read, Write};

/// How many calls are tried where each but the last was interrupted: the first, and 1,000 again.
pub const TRIES: u32 = 1001;

/// One read of a reader, tried again where it was interrupted, at most 1,000 times. It gives how many bytes it moved into
/// the buffer: 0 where there is no room, and else at the end of the input alone.
///
/// # Errors
/// The reader failed, or was interrupted too often. Where it tells what is left, nothing was read.
pub fn read_again<R: Read>(reader: &mut R, buf: &mut [u8]) -> Result<usize, Failed>
    ensures within { IfOk result (λ n. n ≤ length buf.new) }
    ensures moved { IfOk result (λ n. Consumes
        (R.remaining reader.old) (R.remaining reader.new) (take n buf.new)) }
    ensures end { IfOk result (λ n. n ≡ 0 → 0 < length buf.old → IsAtEnd (R.remaining reader.new)) }
    ensures failed { OnErr result (Keeps (R.remaining reader.old) (R.remaining reader.new)) }
{
    'tries: for _ in 0..TRIES {
        match reader.read(buf) {
            Ok(count) => return Ok(count),
            Err(error) if error.kind() == ErrorKind::Interrupted => {}
            Err(_error) => return Err(Failed),
        }
    }
    Err(Failed)
}

/// One write to a writer, tried again where it was interrupted, at most 1,000 times. It gives how many of the bytes the
/// writer took, which may be none.
///
/// # Errors
/// The writer failed, or was interrupted too often. Where it tells what it holds, nothing was written.
pub fn write_again<W: Write>(writer: &mut W, bytes: &[u8]) -> Result<usize, Failed>
    ensures within { IfOk result (λ n. n ≤ length bytes.now) }
    ensures appended { IfOk result (λ n. Appends
        (W.contents writer.old) (W.contents writer.new) (take n bytes.now)) }
    ensures failed { OnErr result (Keeps (W.contents writer.old) (W.contents writer.new)) }
{
    'tries: for _ in 0..TRIES {
        match writer.write(bytes) {
            Ok(count) => return Ok(count),
            Err(error) if error.kind() == ErrorKind::Interrupted => {}
            Err(_error) => return Err(Failed),
        }
    }
    Err(Failed)
}

/// One flush of a writer, tried again where it was interrupted, at most 1,000 times.
///
/// # Errors
/// The writer failed, or was interrupted too often. What it holds is as before, as where it was flushed.
pub fn flush_again<W: Write>(writer: &mut W) -> Result<(), Failed>
    ensures { Keeps (W.contents writer.old) (W.contents writer.new) }
{
    'tries: for _ in 0..TRIES {
        match writer.flush() {
            Ok(()) => return Ok(()),
            Err(error) if error.kind() == ErrorKind::Interrupted => {}
            Err(_error) => return Err(Failed),
        }
    }
    Err(Failed)
}
