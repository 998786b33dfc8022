ghost use Rattle.std.specs.Prelude.{◌≡◌, ◌≢◌, ℕ, List, ◌≤◌, ◌+◌, ◌-◌, ◌^◌, [], length, slice_get, is_ok, None, All, IfOk, IfErr, OnOk, OnErr};
ghost use Rattle.std.specs.Option.{option_copied};
ghost use Rattle.ext_text.specs.Causes.{HasCause};
ghost use Rattle.ext_disk.specs.Disk.{MayLeave, now};
ghost use Rattle.ext_disk.specs.Picked.{picked_place};
ghost use Rattle.ext_disk.specs.Calls.{Call, look, make_dir, make_file, append, sync_file, sync_dir, rename, remove, Allows, MayCall, Does, DoesTold};
ghost use Rattle.ext_disk.specs.DiskEntries.{IsGrown};
ghost use Rattle.ext_disk.specs.Deeds.{call_of, empty_places, given_from};
ghost use Rattle.ext_disk.specs.Lookups.{MayList, MayRead, Lists, ListCause, IsKindAt, IsReadOf};
ghost use Rattle.ext_disk.specs.Memory.{memory_state, told_by, came_to, places_of, appended_on, calls_of, starved_of, IsCalled, IsListCall, IsUncalled};
ghost use Rattle.ext_disk.specs.declared.disk_call.DiskOp.TheVariants as ops;

use crate::deed::Deed;
use crate::disk::Disk;
use crate::disk_call::{DiskCall, DiskOp};
use crate::disk_entries::{bytes_at, kind_at};
use crate::disk_entry::Content;
use crate::history::History;
use crate::kind::Kind;
use crate::list_err::ListErr;
use crate::listing::names_in;
use crate::meter::Meter;
use crate::pick::Pick;
use crate::stopped::left_by_stop;
use ext_io::{Calls, Failed};
use ext_text::{Names, OutOfMemory, Path};
use std::alloc::Global;

/// A disk in memory, for tests: it tells everything, keeps a record of its calls, and fails where it is told to. A path is
/// found by a search, and an append costs its bytes, which are held once, for the file and for the past.
///
/// A call fails exactly where its number, counted from 1, is listed, where it is the stop's or greater, or where it found
/// no memory, which is counted apart. A count stands still at 18,446,744,073,709,551,615.
#[derive(Drop)]
pub struct MemoryDisk {
    pub(crate) history: History,
    pub(crate) meter: Meter,
}

impl MemoryDisk {
    /// An empty disk with nothing to sync, whose calls of these numbers fail, and each call from the number `stop` on.
    pub fn new(alloc: Global, fails: Calls, stop: Option<u64>) -> MemoryDisk
        ensures empty { (p : List (List ℕ)) → places_of result p ≡ empty_places p }
        ensures uncalled { IsUncalled result fails stop }
    {
        MemoryDisk {
            history: History::new(alloc),
            meter: Meter::new(alloc, fails, stop),
        }
    }

    /// How many calls failed because they found no memory. Each of them is counted as a fault, too.
    pub fn starved(&self) -> u64
        ensures { result ≡ starved_of self.now }
    {
        self.meter.starved
    }

    /// The sum of the bytes of all appends that were done. At 18,446,744,073,709,551,615 it stays there.
    pub fn appended(&self) -> u64
        ensures { result ≡ appended_on self.now }
    {
        self.history.appended
    }

    /// How many calls the record has. A call that found no memory for its record is not kept there.
    pub fn calls(&self) -> u64
        ensures { result ≡ length (calls_of self.now) }
    {
        self.meter.calls.len() as u64
    }

    /// A call of the record, in their order from 0 on; `None` exactly past the last.
    pub fn call(&self, index: u64) -> Option<&DiskCall>
        ensures { option_copied result ≡ slice_get (calls_of self.now) index }
    {
        self.meter.calls.get(index as usize)
    }

    /// The disk after a stop now: it holds one tree that a stop may leave, with nothing to sync, and none of its calls is
    /// to fail. The past is let go.
    ///
    /// # Errors
    /// Out of memory.
    pub fn after_stop(self, pick: Pick) -> Result<MemoryDisk, OutOfMemory>
        ensures left { IfOk result (λ disk. MayLeave (places_of self) (now (places_of disk))) }
        ensures picked { IfOk result (λ disk. places_of disk ≡ picked_place pick (places_of self)) }
        ensures uncalled { IfOk result (λ disk. IsUncalled disk [] None) }
    {
        let alloc = self.history.alloc;
        let given = left_of(self.history, pick)?;
        let history = History::given(alloc, given)?;
        Ok(MemoryDisk {
            history,
            meter: Meter::new(alloc, Calls::new(alloc), None),
        })
    }

    // One of the calls that change something: it is counted, and done where it may be.
    fn change(
        &mut self,
        op: DiskOp,
        path: &Path,
        bytes: u64,
        deed: Result<Deed, OutOfMemory>,
    ) -> Result<(), Failed>
        requires { IfOk deed (λ deed. Allows (call_of deed) (places_of self.old)) }
        ensures does { (call : Call) → IfOk deed (λ deed. call ≡ call_of deed)
            → Does call (memory_state self.old) (memory_state self.new) (is_ok result) }
        ensures cause { HasCause result (memory_state self.old).faults (memory_state self.new).faults }
        ensures exact { IsCalled self.old self.new (record { op = op; path = path.now; bytes = bytes }) (is_ok result) }
    {
        self.meter.admit(op, path, bytes)?;
        match add_found(&mut self.history, deed) {
            Ok(()) => Ok(()),
            Err(OutOfMemory) => Err(self.meter.starve()),
        }
    }
}

impl Disk for MemoryDisk {
    ghost use Rattle.ext_disk.specs.MemoryLaws.{holds_a_tree};

    ghost state = { memory_state };

    /// Beside what each disk promises: the call fails exactly where it is to fail, and is kept in the record. Names that
    /// find no memory are no fault.
    fn list(&mut self, alloc: Global, dir: &Path) -> Result<Names, ListErr>
        requires { MayList (memory_state self.old) dir.now }
        ensures names { IfOk result (Lists (memory_state self.old) dir.now) }
        ensures does { Does look (memory_state self.old) (memory_state self.new) (is_ok result) }
        ensures cause { IfErr result (ListCause (memory_state self.old).faults (memory_state self.new).faults) }
        ensures exact { IsListCall self.old self.new (record { op = ops.List; path = dir.now; bytes = 0 }) result }
    {
        self.meter.admit(DiskOp::List, dir, 0)?;
        let names = names_in(alloc, &self.history.disk_entries, dir)?;
        Ok(names)
    }

    /// Beside what each disk promises: the call fails exactly where it is to fail, and is kept in the record.
    fn kind(&mut self, path: &Path) -> Result<Option<Kind>, Failed>
        ensures kind { IfOk result (IsKindAt (memory_state self.old) path.now) }
        ensures does { Does look (memory_state self.old) (memory_state self.new) (is_ok result) }
        ensures cause { HasCause result (memory_state self.old).faults (memory_state self.new).faults }
        ensures exact { IsCalled self.old self.new (record { op = ops.Kind; path = path.now; bytes = 0 }) (is_ok result) }
    {
        self.meter.admit(DiskOp::Kind, path, 0)?;
        Ok(kind_at(&self.history.disk_entries, path))
    }

    /// Beside what each disk promises: the call fails exactly where it is to fail, and is kept in the record.
    fn read(&mut self, path: &Path, at: u64, buf: &mut [u8]) -> Result<usize, Failed>
        requires { MayRead (memory_state self.old) path.now (length buf.old) }
        ensures within { IfOk result (λ count. count ≤ length buf.new) }
        ensures moved { IfOk result (IsReadOf (memory_state self.old) path.now at buf.new) }
        ensures does { Does look (memory_state self.old) (memory_state self.new) (is_ok result) }
        ensures cause { HasCause result (memory_state self.old).faults (memory_state self.new).faults }
        ensures exact { IsCalled self.old self.new (record { op = ops.Read; path = path.now; bytes = length buf.old }) (is_ok result) }
    {
        self.meter.admit(DiskOp::Read, path, buf.len() as u64)?;
        match bytes_at(&self.history.disk_entries, path) {
            Some(file) => Ok(file.read(at, buf)),
            None => Ok(0),
        }
    }

    /// Beside what each disk promises: the call fails exactly where it is to fail, and is kept in the record.
    fn make_dir(&mut self, path: &Path) -> Result<(), Failed>
        requires { MayCall (make_dir path.now) (memory_state self.old) }
        ensures does { Does (make_dir path.now) (memory_state self.old) (memory_state self.new) (is_ok result) }
        ensures cause { HasCause result (memory_state self.old).faults (memory_state self.new).faults }
        ensures exact { IsCalled self.old self.new (record { op = ops.MakeDir; path = path.now; bytes = 0 }) (is_ok result) }
    {
        let deed = Deed::make_dir(path);
        self.change(DiskOp::MakeDir, path, 0, deed)
    }

    /// Beside what each disk promises: the call fails exactly where it is to fail, and is kept in the record.
    fn make_file(&mut self, path: &Path) -> Result<(), Failed>
        requires { MayCall (make_file path.now) (memory_state self.old) }
        ensures does { Does (make_file path.now) (memory_state self.old) (memory_state self.new) (is_ok result) }
        ensures cause { HasCause result (memory_state self.old).faults (memory_state self.new).faults }
        ensures exact { IsCalled self.old self.new (record { op = ops.MakeFile; path = path.now; bytes = 0 }) (is_ok result) }
    {
        let deed = Deed::make_file(path);
        self.change(DiskOp::MakeFile, path, 0, deed)
    }

    /// Beside what each disk promises: the call fails exactly where it is to fail, and is kept in the record.
    fn append(&mut self, path: &Path, bytes: &[u8]) -> Result<(), Failed>
        requires { MayCall (append path.now bytes.now) (memory_state self.old) }
        ensures does { Does (append path.now bytes.now) (memory_state self.old) (memory_state self.new) (is_ok result) }
        ensures cause { HasCause result (memory_state self.old).faults (memory_state self.new).faults }
        ensures exact { IsCalled self.old self.new (record { op = ops.Append; path = path.now; bytes = length bytes.now }) (is_ok result) }
    {
        let deed = Deed::append(self.history.alloc, path, bytes);
        self.change(DiskOp::Append, path, bytes.len() as u64, deed)
    }

    /// Beside what each disk promises: the call fails exactly where it is to fail, and is kept in the record.
    fn sync_file(&mut self, path: &Path) -> Result<(), Failed>
        requires { MayCall (sync_file path.now) (memory_state self.old) }
        ensures does { Does (sync_file path.now) (memory_state self.old) (memory_state self.new) (is_ok result) }
        ensures cause { HasCause result (memory_state self.old).faults (memory_state self.new).faults }
        ensures exact { IsCalled self.old self.new (record { op = ops.SyncFile; path = path.now; bytes = 0 }) (is_ok result) }
    {
        let deed = Deed::sync_file(path);
        self.change(DiskOp::SyncFile, path, 0, deed)
    }

    /// Beside what each disk promises: the call fails exactly where it is to fail, and is kept in the record.
    fn sync_dir(&mut self, dir: &Path) -> Result<(), Failed>
        requires { MayCall (sync_dir dir.now) (memory_state self.old) }
        ensures does { Does (sync_dir dir.now) (memory_state self.old) (memory_state self.new) (is_ok result) }
        ensures cause { HasCause result (memory_state self.old).faults (memory_state self.new).faults }
        ensures exact { IsCalled self.old self.new (record { op = ops.SyncDir; path = dir.now; bytes = 0 }) (is_ok result) }
    {
        let deed = Deed::sync_dir(dir);
        self.change(DiskOp::SyncDir, dir, 0, deed)
    }

    /// Beside what each disk promises: the call fails exactly where it is to fail, and is kept in the record.
    fn rename(&mut self, from: &Path, to: &Path) -> Result<(), Failed>
        requires { MayCall (rename from.now to.now) (memory_state self.old) }
        ensures does { Does (rename from.now to.now) (memory_state self.old) (memory_state self.new) (is_ok result) }
        ensures cause { HasCause result (memory_state self.old).faults (memory_state self.new).faults }
        ensures exact { IsCalled self.old self.new (record { op = ops.Rename; path = from.now; bytes = 0 }) (is_ok result) }
    {
        let deed = Deed::rename(from, to);
        self.change(DiskOp::Rename, from, 0, deed)
    }

    /// Beside what each disk promises: the call fails exactly where it is to fail, and is kept in the record.
    fn remove(&mut self, path: &Path) -> Result<(), Failed>
        requires { MayCall (remove path.now) (memory_state self.old) }
        ensures does { Does (remove path.now) (memory_state self.old) (memory_state self.new) (is_ok result) }
        ensures cause { HasCause result (memory_state self.old).faults (memory_state self.new).faults }
        ensures exact { IsCalled self.old self.new (record { op = ops.Remove; path = path.now; bytes = 0 }) (is_ok result) }
    {
        let deed = Deed::remove(path);
        self.change(DiskOp::Remove, path, 0, deed)
    }

    ghost holds_a_tree = { λ disk. holds_a_tree disk };
}

// What stands after a stop of a disk that came so far. Its places are let go before others are made of what it gives.
fn left_of(history: History, pick: Pick) -> Result<Vec<(Path, Content)>, OutOfMemory>
    ensures paths { IfOk result (λ given. All (λ e. e.0 ≢ []) given.items) }
    ensures picked { IfOk result (λ given. given_from empty_places given.items ≡ picked_place pick (came_to history)) }
    ensures grown { IfOk result (λ given. IsGrown (given_from empty_places given.items)) }
{
    let alloc = history.alloc;
    let disk_entries = history.into_disk_entries();
    left_by_stop(alloc, &disk_entries, pick)
}

// Does a deed for which there was memory.
fn add_found(history: &mut History, deed: Result<Deed, OutOfMemory>) -> Result<(), OutOfMemory>
    requires { IfOk deed (λ deed. Allows (call_of deed) (came_to history.old)) }
    ensures { (call : Call) → IfOk deed (λ deed. call ≡ call_of deed)
        → DoesTold call (is_ok result) (told_by history.old) (told_by history.new) }
{
    let deed = deed?;
    history.add(deed)?;
    Ok(())
}
