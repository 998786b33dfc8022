// The names of a folder of a disk in memory that are synced by a sync of it.
ghost use Rattle.std.specs.Prelude.{◌≡◌, ℕ, not, ◌&&◌, [], ◌∷◌, ◌++◌, List, IfOk, OnOk, OnErr, if◌then◌else◌};
ghost use Rattle.std.specs.List.{list_any};
ghost use Rattle.std.specs.Ordering.{eq_by_cmp};
ghost use Rattle.ext_text.specs.Path.{path_cmp};
ghost use Rattle.ext_disk.specs.Disk.{is_synced};
ghost use Rattle.ext_disk.specs.Calls.{put, is_child, synced, synced_in};
ghost use Rattle.ext_disk.specs.DiskEntries.{place_of, place_at, is_unsynced_in, is_unsynced};

use crate::disk_entries::{DiskEntries, name_in};
use crate::disk_entry::DiskEntry;
use ext_text::{OutOfMemory, Path};
use std::alloc::Global;

/// Syncs each name directly in the folder. At an error none has changed.
pub(crate) fn sync_in(
    alloc: Global,
    disk_entries: &mut DiskEntries,
    dir: &Path,
) -> Result<(), OutOfMemory>
    ensures ok { OnOk result ((q : List (List ℕ)) → place_at disk_entries.new q ≡ synced_in dir.now (place_at disk_entries.old) q) }
    ensures err { OnErr result ((q : List (List ℕ)) → place_at disk_entries.new q ≡ place_at disk_entries.old q) }
{
    let paths = unsynced_in(alloc, disk_entries, dir)?;
    sync_each(disk_entries, &paths);
    Ok(())
}

// The paths directly in the folder whose names are not synced, in path order. What lies below a folder comes right after
// it, so the other entries are passed over.
fn unsynced_in(
    alloc: Global,
    disk_entries: &DiskEntries,
    dir: &Path,
) -> Result<Vec<Path>, OutOfMemory>
    ensures { IfOk result (λ paths. (q : List (List ℕ)) → list_any (eq_by_cmp path_cmp q) paths.items
        ≡ is_unsynced_in dir.now (place_at disk_entries.now) q) }
{
    let mut paths = Vec::new(alloc);
    'disk_entries: for (path, disk_entry) in disk_entries.range(dir..) {
        if !path.starts_with(dir) {
            return Ok(paths);
        }
        keep_unsynced(&mut paths, dir, path, disk_entry)?;
    }
    Ok(paths)
}

// Adds the path of a entry directly in the folder whose name is not synced.
fn keep_unsynced(
    paths: &mut Vec<Path>,
    dir: &Path,
    path: &Path,
    disk_entry: &DiskEntry,
) -> Result<(), OutOfMemory>
    ensures { OnOk result (paths.new.items
        ≡ paths.old.items ++ (if is_unsynced dir.now path.now disk_entry.now then path.now ∷ [] else [])) }
{
    if is_unsynced(dir, path, disk_entry) {
        paths.push(path.copy()?)?;
    }
    Ok(())
}

// Whether the path is directly in the folder, and its name is not synced.
fn is_unsynced(dir: &Path, path: &Path, disk_entry: &DiskEntry) -> bool
    ensures { result ≡ is_unsynced dir.now path.now disk_entry.now }
{
    name_in(dir, path).is_some()
        && (disk_entry.unsynced_name || disk_entry.unsynced_rename.is_some())
}

// Syncs the names of these paths.
fn sync_each(disk_entries: &mut DiskEntries, paths: &[Path])
    ensures { (q : List (List ℕ)) → place_at disk_entries.new q
        ≡ (if list_any (eq_by_cmp path_cmp q) paths.now then synced (place_at disk_entries.old q) else place_at disk_entries.old q) }
{
    'paths: for path in paths {
        sync_at(disk_entries, path);
    }
}

// Syncs the name of the path.
fn sync_at(disk_entries: &mut DiskEntries, path: &Path)
    ensures { (q : List (List ℕ)) → place_at disk_entries.new q
        ≡ put path.now (synced (place_at disk_entries.old path.now)) (place_at disk_entries.old) q }
{
    if let Some(disk_entry) = disk_entries.get_mut(path) {
        disk_entry.sync();
    }
}
