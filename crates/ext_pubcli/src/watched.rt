ghost use Rattle.std.specs.Prelude.{◌≡◌};

use crate::index_read::IndexRead;
use ext_disk::{Disk, Kind, ListErr};
use ext_io::Failed;
use ext_text::{Names, Path};
use std::alloc::Global;

/// The disk of a store, of which is kept what a run reads of the index: each call is one of the disk in it, whose answer is given
/// on, and to contracts it is that disk.
#[derive(Drop)]
pub(crate) struct Watched<D: Drop> {
    inner: D,
    index: IndexRead,
}

impl<D: Drop> Watched<D> {
    /// A disk of which nothing was read yet.
    pub(crate) fn new(alloc: Global, inner: D) -> Watched<D>
        ensures { result.inner ≡ inner }
    {
        Watched {
            inner,
            index: IndexRead::new(alloc),
        }
    }

    /// The disk in it.
    pub(crate) fn inner(&self) -> &D
        ensures { result.now ≡ self.now.inner }
    {
        &self.inner
    }

    /// What was read of the index.
    pub(crate) fn index(&self) -> &IndexRead {
        &self.index
    }
}

impl<D: Disk + Drop> Disk for Watched<D> {
    ghost state = { λ w. D.state w.inner };

    ghost holds_a_tree = { λ w. D.holds_a_tree w.inner };

    fn list(&mut self, alloc: Global, dir: &Path) -> Result<Names, ListErr> {
        self.inner.list(alloc, dir)
    }

    fn kind(&mut self, path: &Path) -> Result<Option<Kind>, Failed> {
        self.inner.kind(path)
    }

    fn read(&mut self, path: &Path, at: u64, buf: &mut [u8]) -> Result<usize, Failed> {
        let count = self.inner.read(path, at, buf)?;
        self.index.note(path, at, &buf[..count]);
        Ok(count)
    }

    fn make_dir(&mut self, path: &Path) -> Result<(), Failed> {
        self.inner.make_dir(path)
    }

    fn make_file(&mut self, path: &Path) -> Result<(), Failed> {
        self.inner.make_file(path)
    }

    fn append(&mut self, path: &Path, bytes: &[u8]) -> Result<(), Failed> {
        self.inner.append(path, bytes)
    }

    fn sync_file(&mut self, path: &Path) -> Result<(), Failed> {
        self.inner.sync_file(path)
    }

    fn sync_dir(&mut self, dir: &Path) -> Result<(), Failed> {
        self.inner.sync_dir(dir)
    }

    fn rename(&mut self, from: &Path, to: &Path) -> Result<(), Failed> {
        self.inner.rename(from, to)
    }

    fn remove(&mut self, path: &Path) -> Result<(), Failed> {
        self.inner.remove(path)
    }
}
