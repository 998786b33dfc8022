ghost use Rattle.std.specs.Prelude.{◌≡◌, ◌≤◌, [], length, IfOk, OnOk, OnErr};
ghost use Rattle.ext_text.specs.Causes.{HasCause};
ghost use Rattle.ext_depot.specs.Depot.{IsKept, MayRead, IsSizeAt, IsReadOf};
ghost use Rattle.ext_depot.specs.DepotCalls.{Admits, Puts};

use crate::depot::Depot;
use ext_io::{Calls, Failed, is_listed, next_count, read_at};
use ext_text::{OutOfMemory, Path, Text};
use std::alloc::Global;
use std::collections::BTreeMap;
use std::marker::Model;

/// A depot in memory, for tests: it tells everything, and fails where it is told to. A file is found by a search.
#[derive(Drop)]
pub struct MemoryDepot {
    files: BTreeMap<Path, Text>,
    fails: Calls,
    calls: u64,
    faults: u64,
}

impl Model for MemoryDepot {
    ghost use Rattle.ext_depot.specs.DepotView.{DepotView};

    ghost Value = { DepotView };

    ghost view = { λ d. record {
      files = d.files.entries;
      fails = d.fails;
      calls = d.calls;
      faults = d.faults;
    } };
}

impl MemoryDepot {
    ghost use Rattle.ext_depot.specs.DepotView.{depot_state};

    /// An empty depot whose calls of these numbers fail. Calls of `size` and `read` are counted together, from 1, and a
    /// count stands still at 18,446,744,073,709,551,615.
    pub fn new(alloc: Global, fails: Calls) -> MemoryDepot
        ensures { result ≡ record { files = []; fails = fails; calls = 0; faults = 0 } }
    {
        MemoryDepot {
            files: BTreeMap::new(alloc),
            fails,
            calls: 0,
            faults: 0,
        }
    }

    /// Has a file of these bytes at the path, in the place of the one that stood there.
    ///
    /// # Errors
    /// Out of memory. The depot is then as before.
    pub fn put(&mut self, path: Path, bytes: Text) -> Result<(), OutOfMemory>
        ensures ok { OnOk result (Puts self.old self.new path bytes) }
        ensures err { OnErr result (self.new ≡ self.old) }
    {
        match self.files.insert(path, bytes) {
            Ok(_replaced) => Ok(()),
            Err(_refused) => Err(OutOfMemory),
        }
    }

    // Counts a call, and whether it is one that fails.
    fn admit(&mut self) -> Result<(), Failed>
        ensures exact { Admits self.old self.new result }
        ensures kept { IsKept (depot_state self.old) (depot_state self.new) }
        ensures cause { HasCause result self.old.faults self.new.faults }
    {
        self.calls = next_count(self.calls);
        if !is_listed(&self.fails, self.calls) {
            return Ok(());
        }
        self.faults = next_count(self.faults);
        Err(Failed)
    }
}

impl Depot for MemoryDepot {
    ghost use Rattle.ext_depot.specs.DepotView.{depot_state};

    ghost state = { depot_state };

    /// Beside what each depot promises: the call fails exactly where it is listed.
    fn size(&mut self, path: &Path) -> Result<Option<u64>, Failed>
        ensures size { IfOk result (IsSizeAt (depot_state self.old) path.now) }
        ensures kept { IsKept (depot_state self.old) (depot_state self.new) }
        ensures cause { HasCause result self.old.faults self.new.faults }
        ensures exact { Admits self.old self.new result }
    {
        self.admit()?;
        match self.files.get(path) {
            None => Ok(None),
            Some(text) => Ok(Some(text.bytes().len() as u64)),
        }
    }

    /// Beside what each depot promises: the call fails exactly where it is listed.
    fn read(&mut self, path: &Path, at: u64, buf: &mut [u8]) -> Result<usize, Failed>
        requires { MayRead (depot_state self.old) path.now (length buf.old) }
        ensures within { IfOk result (λ count. count ≤ length buf.new) }
        ensures moved { IfOk result (IsReadOf (depot_state self.old) path.now at buf.new) }
        ensures kept { IsKept (depot_state self.old) (depot_state self.new) }
        ensures cause { HasCause result self.old.faults self.new.faults }
        ensures exact { Admits self.old self.new result }
    {
        self.admit()?;
        match self.files.get(path) {
            None => unreachable!(),
            Some(text) => Ok(read_at(text.bytes(), at, buf)),
        }
    }
}
