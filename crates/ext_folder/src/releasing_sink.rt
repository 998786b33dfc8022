ghost use Rattle.std.specs.Prelude.{◌≡◌};

use ext_io::{Failed, Sink};
use std::fs::File;

/// A sink that gives a lock back before the first byte that is written to it, for who looks at the locked folder no more by
/// then: whoever reads what is written may lock it. Else it is the sink in it.
#[derive(Drop)]
pub struct ReleasingSink<K: Sink + Drop> {
    inner: K,
    lock: Option<File>,
}

impl<K: Sink + Drop> ReleasingSink<K> {
    /// A sink, and a handle of the lock that goes with the first byte; with none it is the sink alone.
    pub fn new(inner: K, lock: Option<File>) -> ReleasingSink<K> {
        ReleasingSink { inner, lock }
    }

    // A lock that can't be given back goes with the process.
    fn release(&mut self)
        ensures { K.state self.new.inner ≡ K.state self.old.inner }
    {
        if let Some(lock) = self.lock.take() {
            let _ = lock.unlock();
        }
    }
}

impl<K: Sink + Drop> Sink for ReleasingSink<K> {
    ghost state = { λ s. K.state s.inner };

    fn write(&mut self, bytes: &[u8]) -> Result<usize, Failed> {
        self.release();
        self.inner.write(bytes)
    }
}
