ghost use Rattle.std.specs.Prelude.{◌≡◌};

use crate::progress::Progress;
use ext_io::{Failed, Sink};

/// A sink before whose writes the line of progress is wiped, since both may be written to one terminal. Else it is the sink in
/// it.
#[derive(Drop)]
pub(crate) struct WipingSink<'p, K: Sink + Drop> {
    inner: K,
    progress: &'p Progress,
}

impl<'p, K: Sink + Drop> WipingSink<'p, K> {
    /// A sink, and the line that gives way to what is written to it.
    pub(crate) fn new(inner: K, progress: &'p Progress) -> WipingSink<'p, K>
        ensures { result.inner ≡ inner }
    {
        WipingSink { inner, progress }
    }
}

impl<'p, K: Sink + Drop> Sink for WipingSink<'p, K> {
    ghost state = { λ s. K.state s.inner };

    fn write(&mut self, bytes: &[u8]) -> Result<usize, Failed> {
        self.progress.wipe();
        let count = self.inner.write(bytes)?;
        self.progress.note_reply(&bytes[..count]);
        Ok(count)
    }
}
