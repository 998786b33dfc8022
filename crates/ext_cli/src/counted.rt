ghost use Rattle.std.specs.Prelude.{◌≡◌};

use crate::progress::Progress;
use ext_depot::Depot;
use ext_disk::{Disk, Kind, ListErr};
use ext_io::Failed;
use ext_text::{Names, Path};
use std::alloc::Global;

/// A device of which a person is told how much it reads and writes: each call is one of the device in it, whose answer is given
/// on, and to contracts it is that device. A look at a path and the making of a path tell nothing, since they are quick, and a
/// call that does follows.
#[derive(Drop)]
pub(crate) struct Counted<'p, D: Drop> {
    inner: D,
    progress: &'p Progress,
}

impl<'p, D: Drop> Counted<'p, D> {
    /// A device, and who is told.
    pub(crate) fn new(inner: D, progress: &'p Progress) -> Counted<'p, D>
        ensures { result.inner ≡ inner }
    {
        Counted { inner, progress }
    }

    /// The device in it.
    pub(crate) fn inner(&self) -> &D
        ensures { result.now ≡ self.now.inner }
    {
        &self.inner
    }
}

// What a read gave, of a file from the byte `at` on.
fn note_read(progress: &Progress, at: u64, outcome: &Result<usize, Failed>) {
    if let Ok(count) = outcome {
        progress.note_read(at, *count);
    }
    progress.go_on();
}

impl<'p, D: Disk + Drop> Disk for Counted<'p, D> {
    ghost state = { λ c. D.state c.inner };

    ghost holds_a_tree = { λ c. D.holds_a_tree c.inner };

    fn list(&mut self, alloc: Global, dir: &Path) -> Result<Names, ListErr> {
        let names = self.inner.list(alloc, dir);
        self.progress.go_on();
        names
    }

    fn kind(&mut self, path: &Path) -> Result<Option<Kind>, Failed> {
        self.inner.kind(path)
    }

    fn read(&mut self, path: &Path, at: u64, buf: &mut [u8]) -> Result<usize, Failed> {
        let count = self.inner.read(path, at, buf);
        note_read(self.progress, at, &count);
        count
    }

    fn make_dir(&mut self, path: &Path) -> Result<(), Failed> {
        self.inner.make_dir(path)
    }

    fn make_file(&mut self, path: &Path) -> Result<(), Failed> {
        let outcome = self.inner.make_file(path);
        if outcome.is_ok() {
            self.progress.note_making();
        }
        outcome
    }

    fn append(&mut self, path: &Path, bytes: &[u8]) -> Result<(), Failed> {
        let outcome = self.inner.append(path, bytes);
        if outcome.is_ok() {
            self.progress.note_append(bytes.len());
        }
        self.progress.go_on();
        outcome
    }

    fn sync_file(&mut self, path: &Path) -> Result<(), Failed> {
        let outcome = self.inner.sync_file(path);
        self.progress.go_on();
        outcome
    }

    fn sync_dir(&mut self, dir: &Path) -> Result<(), Failed> {
        let outcome = self.inner.sync_dir(dir);
        self.progress.go_on();
        outcome
    }

    fn rename(&mut self, from: &Path, to: &Path) -> Result<(), Failed> {
        let outcome = self.inner.rename(from, to);
        self.progress.go_on();
        outcome
    }

    fn remove(&mut self, path: &Path) -> Result<(), Failed> {
        let outcome = self.inner.remove(path);
        self.progress.go_on();
        outcome
    }
}

impl<'p, P: Depot + Drop> Depot for Counted<'p, P> {
    ghost state = { λ c. P.state c.inner };

    fn size(&mut self, path: &Path) -> Result<Option<u64>, Failed> {
        self.inner.size(path)
    }

    fn read(&mut self, path: &Path, at: u64, buf: &mut [u8]) -> Result<usize, Failed> {
        let count = self.inner.read(path, at, buf);
        note_read(self.progress, at, &count);
        count
    }
}
