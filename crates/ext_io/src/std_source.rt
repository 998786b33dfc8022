ghost use Rattle.std.specs.Prelude.{◌≡◌, ◌<◌, ◌≤◌, length, take, if◌then◌else◌, is_ok, IfOk, OnErr};
ghost use Rattle.std.specs.Io.KnownBytes.{Consumes, IsAtEnd, Keeps};
ghost use Rattle.ext_text.specs.Causes.{HasCause};
ghost use Rattle.ext_io.specs.Device.{next_count};

use crate::device::next_count;
use crate::failed::Failed;
use crate::retries::read_again;
use crate::source::Source;
use std::io::Read;
use std::marker::Model;

/// A reader of std as a source. A call that is interrupted is tried again, at most 1,000 times in a row. The source tells
/// nothing of its bytes, and counts the calls that failed.
#[derive(Drop)]
pub struct StdSource<R> {
    inner: R,
    faults: u64,
}

impl<R> Model for StdSource<R> {
    ghost use Rattle.ext_io.specs.StdView.{StdView};

    ghost Value = { StdView R };

    ghost view = { λ s. record { inner = s.inner; faults = s.faults } };
}

impl<R: Read> StdSource<R> {
    /// The source of a reader's bytes.
    pub fn new(inner: R) -> StdSource<R>
        ensures { result ≡ record { inner = inner; faults = 0 } }
    {
        StdSource { inner, faults: 0 }
    }
}

impl<R: Read> Source for StdSource<R> {
    ghost use Rattle.std.specs.Prelude.{None};

    ghost state = { λ s. record { left = None; faults = s.faults } };

    /// Beside what each source promises: it takes from the reader exactly what it gives, and counts each call that
    /// failed.
    fn read(&mut self, buf: &mut [u8]) -> Result<usize, Failed>
        requires { 0 < length buf.old }
        ensures within { IfOk result (λ n. n ≤ length buf.new) }
        ensures count { self.old.faults ≤ self.new.faults }
        ensures cause { HasCause result self.old.faults self.new.faults }
        ensures moved { IfOk result (λ n. Consumes
            (R.remaining self.old.inner) (R.remaining self.new.inner) (take n buf.new)) }
        ensures end { IfOk result (λ n. n ≡ 0 → IsAtEnd (R.remaining self.new.inner)) }
        ensures failed { OnErr result (Keeps (R.remaining self.old.inner) (R.remaining self.new.inner)) }
        ensures counted { self.new.faults
            ≡ (if is_ok result then self.old.faults else next_count self.old.faults) }
    {
        match read_again(&mut self.inner, buf) {
            Ok(count) => Ok(count),
            Err(failed) => {
                self.faults = next_count(self.faults);
                Err(failed)
            }
        }
    }
}
