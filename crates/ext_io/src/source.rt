ghost use Rattle.std.specs.Prelude.{◌≡◌, ◌<◌, ◌≤◌, length, take, IfOk, OnErr};
ghost use Rattle.std.specs.Io.KnownBytes.{Consumes, IsAtEnd, Keeps};
ghost use Rattle.ext_text.specs.Causes.{HasCause};
ghost use Rattle.ext_io.specs.SourceState.{SourceState};

use crate::failed::Failed;

/// Where bytes are read from, each byte once and in their order.
pub trait Source {
    /// The bytes that are left to read, where the source tells them, and how often a call failed.
    ghost state: { Self → SourceState };

    /// Reads some of the bytes to the start of a buffer that has room for one at least, and gives how many they
    /// are. It gives 0 exactly at the end of the input.
    ///
    /// # Errors
    /// The source failed. Where it tells what is left, nothing was read.
    fn read(&mut self, buf: &mut [u8]) -> Result<usize, Failed>
        requires { 0 < length buf.old }
        ensures within { IfOk result (λ n. n ≤ length buf.new) }
        ensures moved { IfOk result (λ n. Consumes (state self.old).left (state self.new).left (take n buf.new)) }
        ensures end { IfOk result (λ n. n ≡ 0 → IsAtEnd (state self.new).left) }
        ensures failed { OnErr result (Keeps (state self.old).left (state self.new).left) }
        ensures count { (state self.old).faults ≤ (state self.new).faults }
        ensures cause { HasCause result (state self.old).faults (state self.new).faults };
}
