// The tree of a disk in memory, and its past.
ghost use Rattle.std.specs.Prelude.{◌≡◌, ◌≢◌, ℕ, ◌∷◌, ◌++◌, [], List, true, Some, ◌&&◌, All, IfOk, OnOk, OnErr};
ghost use Rattle.ext_disk.specs.Disk.{file, is_durable};
ghost use Rattle.ext_disk.specs.Calls.{Allows, CanRename, after, with_unsynced_name, renamed, appended_after};
ghost use Rattle.ext_disk.specs.DiskEntries.{place_of, place_at, IsGrown};
ghost use Rattle.ext_disk.specs.Deeds.{IsWhole, call_of, empty_places, given_from, replay};

use crate::deed::Deed;
use crate::disk_entries::{
    DiskEntries, append_at, harden_at, is_durable_at, leave_at, put_disk_entry, reach_at, reserve,
};
use crate::disk_entry::{Content, DiskEntry};
use crate::pieces::Pieces;
use crate::stopped::disk_entries_of;
use crate::syncing::sync_in;
use ext_text::{OutOfMemory, Path};
use std::alloc::Global;

/// What stands on a disk in memory, what it began with, and everything that was done to it since: a stop at an earlier
/// moment leaves what it may leave of what stood then, so the past is kept. Bytes that were appended are held once, in
/// pieces that the file and the past share.
#[derive(Drop)]
pub(crate) struct History {
    pub(crate) alloc: Global,
    pub(crate) disk_entries: DiskEntries,
    pub(crate) given: Vec<(Path, Content)>,
    pub(crate) deeds: Vec<Deed>,
    pub(crate) appended: u64,
    ghost whole: { IsWhole disk_entries given.items deeds.items },
}

impl History {
    /// The history of an empty disk.
    pub(crate) fn new(alloc: Global) -> History
        ensures given { result.given.items ≡ [] }
        ensures deeds { result.deeds.items ≡ [] }
        ensures appended { result.appended ≡ 0 }
    {
        History {
            alloc,
            disk_entries: DiskEntries::new(alloc),
            given: Vec::new(alloc),
            deeds: Vec::new(alloc),
            appended: 0,
        }
    }

    /// The history of a disk that begins with these.
    pub(crate) fn given(alloc: Global, given: Vec<(Path, Content)>) -> Result<History, OutOfMemory>
        requires paths { All (λ e. e.0 ≢ []) given.items }
        requires grown { IsGrown (given_from empty_places given.items) }
        ensures given { IfOk result (λ history. history.given.items ≡ given.items) }
        ensures deeds { IfOk result (λ history. history.deeds.items ≡ []) }
        ensures appended { IfOk result (λ history. history.appended ≡ 0) }
    {
        let disk_entries = disk_entries_of(alloc, &given)?;
        Ok(History {
            alloc,
            disk_entries,
            given,
            deeds: Vec::new(alloc),
            appended: 0,
        })
    }

    /// The places alone; the past is let go.
    pub(crate) fn into_disk_entries(self) -> DiskEntries
        ensures places { (q : List (List ℕ)) → place_at result q ≡ replay self.given.items self.deeds.items q }
        ensures grown { IsGrown (replay self.given.items self.deeds.items) }
    {
        self.disk_entries
    }

    /// Does a deed that is allowed. At an error nothing was done.
    pub(crate) fn add(&mut self, deed: Deed) -> Result<(), OutOfMemory>
        requires { Allows (call_of deed) (replay self.old.given.items self.old.deeds.items) }
        ensures given { self.new.given.items ≡ self.old.given.items }
        ensures ok { OnOk result (self.new.deeds.items ≡ self.old.deeds.items ++ deed ∷ []) }
        ensures err { OnErr result (self.new.deeds.items ≡ self.old.deeds.items) }
        ensures sum { OnOk result (self.new.appended ≡ appended_after (call_of deed) self.old.appended) }
        ensures sum_stays { OnErr result (self.new.appended ≡ self.old.appended) }
    {
        self.deeds.reserve(1)?;
        apply(self.alloc, &mut self.disk_entries, &deed)?;
        self.appended = sum_after(self.appended, &deed);
        self.deeds.push_reserved(deed);
        Ok(())
    }
}

// The sum of the bytes appended, after one more deed.
fn sum_after(sum: u64, deed: &Deed) -> u64
    ensures { result ≡ appended_after (call_of deed.now) sum }
{
    match deed {
        Deed::Append(_path, piece) => sum.saturating_add(piece.bytes().len() as u64),
        _ => sum,
    }
}

// Does one deed to the places. At an error none has changed.
fn apply(alloc: Global, disk_entries: &mut DiskEntries, deed: &Deed) -> Result<(), OutOfMemory>
    requires grown { IsGrown (place_at disk_entries.old) }
    requires allowed { Allows (call_of deed.now) (place_at disk_entries.old) }
    ensures ok { OnOk result ((q : List (List ℕ)) → place_at disk_entries.new q
        ≡ after (call_of deed.now) (place_at disk_entries.old) q) }
    ensures err { OnErr result ((q : List (List ℕ)) → place_at disk_entries.new q ≡ place_at disk_entries.old q) }
{
    match deed {
        Deed::MakeDir(path) => put_disk_entry(
            disk_entries,
            path,
            DiskEntry::unsynced_name(Content::Folder, false),
        ),
        Deed::MakeFile(path) => put_disk_entry(disk_entries, path, empty_file(alloc)),
        Deed::Append(path, piece) => append_at(disk_entries, path, piece),
        Deed::SyncFile(path) => {
            harden_at(disk_entries, path);
            Ok(())
        }
        Deed::SyncDir(dir) => sync_in(alloc, disk_entries, dir),
        Deed::Rename(from, to) => rename_in(disk_entries, from, to),
        Deed::Remove(path) => put_disk_entry(
            disk_entries,
            path,
            DiskEntry::unsynced_name(Content::Absent, false),
        ),
    }
}

// An empty file whose name and bytes are not synced.
fn empty_file(alloc: Global) -> DiskEntry
    ensures { place_of result ≡ with_unsynced_name (Some (file [])) true }
{
    DiskEntry::unsynced_name(Content::File(Pieces::new(alloc)), true)
}

// Moves a file in its folder. At an error no place has changed.
fn rename_in(disk_entries: &mut DiskEntries, from: &Path, to: &Path) -> Result<(), OutOfMemory>
    requires { CanRename (place_at disk_entries.old) from.now to.now }
    ensures ok { OnOk result ((q : List (List ℕ)) → place_at disk_entries.new q
        ≡ renamed from.now to.now true (place_at disk_entries.old) q) }
    ensures err { OnErr result ((q : List (List ℕ)) → place_at disk_entries.new q ≡ place_at disk_entries.old q) }
{
    let durable = are_durable(disk_entries, from, to)?;
    reserve(disk_entries, to)?;
    let file = leave_at(disk_entries, from);
    reach_at(disk_entries, to, file, durable);
    Ok(())
}

// Whether both paths are durable.
fn are_durable(disk_entries: &DiskEntries, from: &Path, to: &Path) -> Result<bool, OutOfMemory>
    requires from { from.now ≢ [] }
    requires to { to.now ≢ [] }
    ensures { IfOk result (λ durable. durable
        ≡ (is_durable (place_at disk_entries.now) from.now && is_durable (place_at disk_entries.now) to.now)) }
{
    let from = is_durable_at(disk_entries, from)?;
    let to = is_durable_at(disk_entries, to)?;
    Ok(from && to)
}
