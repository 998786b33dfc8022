ghost use Rattle.std.specs.Prelude.{◌≡◌, ◌<◌, ◌≤◌, length, take, if◌then◌else◌, is_ok, IfOk, OnErr};
ghost use Rattle.std.specs.Io.KnownBytes.{Appends, Keeps};
ghost use Rattle.ext_text.specs.Causes.{HasCause};
ghost use Rattle.ext_io.specs.Device.{next_count};

use crate::device::next_count;
use crate::failed::Failed;
use crate::retries::{flush_again, write_again};
use crate::sink::Sink;
use std::io::Write;
use std::marker::Model;

/// A writer of std as a sink, flushed after each write. A call that is interrupted is tried again, at most 1,000 times in
/// a row. A write that takes nothing fails, and so does one whose flush fails, by which time the writer may have taken
/// bytes. The sink tells nothing of them, and counts the calls that failed.
#[derive(Drop)]
pub struct StdSink<W> {
    inner: W,
    faults: u64,
}

impl<W> Model for StdSink<W> {
    ghost use Rattle.ext_io.specs.StdView.{StdView};

    ghost Value = { StdView W };

    ghost view = { λ s. record { inner = s.inner; faults = s.faults } };
}

impl<W: Write> StdSink<W> {
    /// The sink of a writer.
    pub fn new(inner: W) -> StdSink<W>
        ensures { result ≡ record { inner = inner; faults = 0 } }
    {
        StdSink { inner, faults: 0 }
    }
}

impl<W: Write> Sink for StdSink<W> {
    ghost use Rattle.std.specs.Prelude.{None};

    ghost state = { λ s. record { written = None; faults = s.faults } };

    /// Beside what each sink promises: the writer took exactly what it gives, and each call that failed is counted.
    fn write(&mut self, bytes: &[u8]) -> Result<usize, Failed>
        requires { 0 < length bytes.now }
        ensures non_empty { IfOk result (λ n. 0 < n) }
        ensures within { IfOk result (λ n. n ≤ length bytes.now) }
        ensures count { self.old.faults ≤ self.new.faults }
        ensures cause { HasCause result self.old.faults self.new.faults }
        ensures appended { IfOk result (λ n. Appends
            (W.contents self.old.inner) (W.contents self.new.inner) (take n bytes.now)) }
        ensures counted { self.new.faults
            ≡ (if is_ok result then self.old.faults else next_count self.old.faults) }
    {
        match write_through(&mut self.inner, bytes) {
            Ok(count) => Ok(count),
            Err(failed) => {
                self.faults = next_count(self.faults);
                Err(failed)
            }
        }
    }
}

// One write that takes a byte at least, and a flush.
fn write_through<W: Write>(writer: &mut W, bytes: &[u8]) -> Result<usize, Failed>
    ensures non_empty { IfOk result (λ n. 0 < n) }
    ensures within { IfOk result (λ n. n ≤ length bytes.now) }
    ensures appended { IfOk result (λ n. Appends
        (W.contents writer.old) (W.contents writer.new) (take n bytes.now)) }
{
    let count = write_again(writer, bytes)?;
    if count == 0 {
        return Err(Failed);
    }
    flush_again(writer)?;
    Ok(count)
}
