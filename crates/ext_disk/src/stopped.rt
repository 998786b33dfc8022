// What a disk in memory holds after a stop.
ghost use Rattle.std.specs.Prelude.{◌≡◌, ◌≢◌, ℕ, ◌∷◌, ◌++◌, [], List, Some, All, IfOk, if◌then◌else◌};
ghost use Rattle.ext_disk.specs.DiskEntries.{node_of, place_of, place_at};
ghost use Rattle.ext_disk.specs.Deeds.{empty_places, given_from};
ghost use Rattle.ext_disk.specs.Picked.{is_shown, is_kept, chosen, junked, picked, picked_place};

use crate::disk_entries::{DiskEntries, put_disk_entry};
use crate::disk_entry::{Content, DiskEntry};
use crate::pick::Pick;
use ext_text::{OutOfMemory, Path};
use std::alloc::Global;

/// What stands at each path after a stop, in path order; nothing stands at the others.
pub(crate) fn left_by_stop(
    alloc: Global,
    disk_entries: &DiskEntries,
    pick: Pick,
) -> Result<Vec<(Path, Content)>, OutOfMemory>
    ensures paths { IfOk result (λ given. All (λ e. e.0 ≢ []) given.items) }
    ensures picked { IfOk result (λ given. (q : List (List ℕ)) → given_from empty_places given.items q
        ≡ picked_place pick (place_at disk_entries.now) q) }
{
    let mut given = Vec::new(alloc);
    'disk_entries: for (path, disk_entry) in disk_entries.iter() {
        if !path.is_root() {
            let content = picked_at(alloc, disk_entries, path, disk_entry, pick)?;
            given.push((path.copy()?, content))?;
        }
    }
    Ok(given)
}

// What stands at a path after a stop.
fn picked_at(
    alloc: Global,
    disk_entries: &DiskEntries,
    path: &Path,
    disk_entry: &DiskEntry,
    pick: Pick,
) -> Result<Content, OutOfMemory>
    ensures { IfOk result (λ content. place_of disk_entry.now ≡ place_at disk_entries.now path.now
        → node_of content ≡ picked pick (place_at disk_entries.now) path.now) }
{
    if stays(disk_entries, path, disk_entry, pick)? {
        chosen_of(alloc, disk_entry, pick)
    } else {
        Ok(Content::Absent)
    }
}

// Whether what stands at a path does not vanish.
fn stays(
    disk_entries: &DiskEntries,
    path: &Path,
    disk_entry: &DiskEntry,
    pick: Pick,
) -> Result<bool, OutOfMemory>
    ensures { IfOk result (λ stays. stays ≡ is_kept pick (is_shown (place_at disk_entries.now) path.now) (place_of disk_entry.now)) }
{
    match pick {
        Pick::Old => {
            let shown = no_folder_has_unsynced_name(disk_entries, path)?;
            Ok(shown && (disk_entry.unsynced_rename.is_some() || !disk_entry.unsynced_name))
        }
        Pick::New | Pick::Junk => Ok(true),
    }
}

// Whether no folder on the way to the path has an unsynced name.
fn no_folder_has_unsynced_name(disk_entries: &DiskEntries, path: &Path) -> Result<bool, OutOfMemory>
    ensures { IfOk result (λ shown. shown ≡ is_shown (place_at disk_entries.now) path.now) }
{
    'names: for count in 0..path.depth() {
        let prefix = path.prefix(count)?;
        if has_unsynced_name_at(disk_entries, &prefix) {
            return Ok(false);
        }
    }
    Ok(true)
}

// Whether the path has an unsynced name.
fn has_unsynced_name_at(disk_entries: &DiskEntries, path: &Path) -> bool
    ensures { result ≡ (place_at disk_entries.now path.now).unsynced_name }
{
    if path.is_root() {
        return false;
    }
    match disk_entries.get(path) {
        Some(disk_entry) => disk_entry.unsynced_name,
        None => false,
    }
}

// What is taken of a path that does not vanish.
fn chosen_of(alloc: Global, disk_entry: &DiskEntry, pick: Pick) -> Result<Content, OutOfMemory>
    ensures { IfOk result (λ content. node_of content
        ≡ chosen pick (place_of disk_entry.now) (place_of disk_entry.now).unsynced_rename) }
{
    match &disk_entry.unsynced_rename {
        Some(before) => match pick {
            Pick::Old => before.copy(),
            Pick::New | Pick::Junk => disk_entry.content.copy(),
        },
        None => match pick {
            Pick::Old | Pick::New => disk_entry.content.copy(),
            Pick::Junk => hardened(alloc, disk_entry),
        },
    }
}

// What stands at a path, with other bytes in a file with unsynced bytes.
fn hardened(alloc: Global, disk_entry: &DiskEntry) -> Result<Content, OutOfMemory>
    ensures { IfOk result (λ content. node_of content
        ≡ (if disk_entry.now.unsynced_bytes then junked (node_of disk_entry.now.content) else node_of disk_entry.now.content)) }
{
    if disk_entry.unsynced_bytes {
        disk_entry.content.junk(alloc)
    } else {
        disk_entry.content.copy()
    }
}

/// The places of a disk on which these stand, put there in turn.
pub(crate) fn disk_entries_of(
    alloc: Global,
    given: &[(Path, Content)],
) -> Result<DiskEntries, OutOfMemory>
    requires { All (λ e. e.0 ≢ []) given.now }
    ensures { IfOk result (λ disk_entries. (q : List (List ℕ)) → place_at disk_entries q
        ≡ given_from empty_places given.now q) }
{
    let mut disk_entries = DiskEntries::new(alloc);
    'given: for (path, content) in given {
        put_disk_entry(&mut disk_entries, path, DiskEntry::durable(content.copy()?))?;
    }
    Ok(disk_entries)
}
