ghost use Rattle.std.specs.Prelude.{◌<◌, ◌≤◌, length, take, IfOk, OnErr};
ghost use Rattle.std.specs.Io.KnownBytes.{Appends, Keeps};
ghost use Rattle.ext_text.specs.Causes.{HasCause};
ghost use Rattle.ext_io.specs.SinkState.{SinkState};

use crate::failed::Failed;

/// Where bytes are written to, each byte once and in their order.
pub trait Sink {
    /// The bytes that were written, where the sink tells them, and how often a call failed.
    ghost state: { Self → SinkState };

    /// Writes a prefix of the bytes, of which there is one at least, and gives how many it took: one at least.
    ///
    /// # Errors
    /// The sink failed. Where it tells what was written, nothing was.
    fn write(&mut self, bytes: &[u8]) -> Result<usize, Failed>
        requires { 0 < length bytes.now }
        ensures non_empty { IfOk result (λ n. 0 < n) }
        ensures within { IfOk result (λ n. n ≤ length bytes.now) }
        ensures appended { IfOk result (λ n. Appends
            (state self.old).written (state self.new).written (take n bytes.now)) }
        ensures failed { OnErr result (Keeps (state self.old).written (state self.new).written) }
        ensures count { (state self.old).faults ≤ (state self.new).faults }
        ensures cause { HasCause result (state self.old).faults (state self.new).faults };
}
