// The map of a disk in memory: a place for each path that was ever named.
ghost use Rattle.std.specs.Prelude.{◌≡◌, ◌≢◌, ℕ, ◌∷◌, ◌++◌, [], List, true, false, None, Some, IsSome, MatchOption, IfOk, IfSome, OnOk, OnErr, is_some, if◌then◌else◌};
ghost use Rattle.std.specs.Option.{option_copied};
ghost use Rattle.std.specs.BTreeMap.{get};
ghost use Rattle.ext_text.specs.Name.{IsName};
ghost use Rattle.ext_text.specs.Path.{IsPath, path_cmp};
ghost use Rattle.ext_disk.specs.Disk.{Place, file, is_file, is_synced, is_durable, at_prefixes};
ghost use Rattle.ext_disk.specs.Calls.{put, child_name, bytes_of, written, left_place, reached_place};
ghost use Rattle.ext_disk.specs.Lookups.{kind_of};
ghost use Rattle.ext_disk.specs.DiskEntries.{DiskEntries, node_of, place_of, place_at, found_place};

use crate::disk_entry::{Content, DiskEntry};
use crate::kind::Kind;
use crate::pieces::{Piece, Pieces};
use ext_text::{OutOfMemory, Path};
use std::alloc::Global;
use std::collections::BTreeMap;

pub(crate) type DiskEntries = BTreeMap<Path, DiskEntry>;

/// Has this entry at the path, whatever stood there. At an error no place has changed.
pub(crate) fn put_disk_entry(
    disk_entries: &mut DiskEntries,
    path: &Path,
    disk_entry: DiskEntry,
) -> Result<(), OutOfMemory>
    requires { path.now ≢ [] }
    ensures ok { OnOk result ((q : List (List ℕ)) → place_at disk_entries.new q
        ≡ put path.now (place_of disk_entry) (place_at disk_entries.old) q) }
    ensures there { OnOk result (get path_cmp disk_entries.new path.now ≡ Some disk_entry) }
    ensures err { OnErr result (disk_entries.new.entries ≡ disk_entries.old.entries) }
{
    let path = path.copy()?;
    disk_entries.insert(path, disk_entry)?;
    Ok(())
}

/// Adds a piece at the end of the file at the path.
pub(crate) fn append_at(
    disk_entries: &mut DiskEntries,
    path: &Path,
    piece: &Piece,
) -> Result<(), OutOfMemory>
    requires { is_file (place_at disk_entries.old path.now).node ≡ true }
    ensures ok { OnOk result ((q : List (List ℕ)) → place_at disk_entries.new q
        ≡ put path.now (written (bytes_of (place_at disk_entries.old path.now).node ++ piece.now) (place_at disk_entries.old path.now))
        (place_at disk_entries.old) q) }
    ensures err { OnErr result ((q : List (List ℕ)) → place_at disk_entries.new q ≡ place_at disk_entries.old q) }
{
    match disk_entries.get_mut(path) {
        Some(disk_entry) => disk_entry.append(piece),
        None => Ok(()),
    }
}

/// Syncs the bytes of the file at the path.
pub(crate) fn harden_at(disk_entries: &mut DiskEntries, path: &Path)
    requires { is_file (place_at disk_entries.old path.now).node ≡ true }
    ensures { (q : List (List ℕ)) → place_at disk_entries.new q
        ≡ put path.now (record (place_at disk_entries.old path.now) { unsynced_bytes = false }) (place_at disk_entries.old) q }
{
    if let Some(disk_entry) = disk_entries.get_mut(path) {
        disk_entry.harden();
    }
}

/// Takes out what stands at the path, as a rename does.
pub(crate) fn leave_at(disk_entries: &mut DiskEntries, path: &Path) -> Content
    requires { is_file (place_at disk_entries.old path.now).node ≡ true }
    ensures taken { node_of result ≡ (place_at disk_entries.old path.now).node }
    ensures left { (q : List (List ℕ)) → place_at disk_entries.new q
        ≡ put path.now (left_place true (place_at disk_entries.old path.now)) (place_at disk_entries.old) q }
    ensures there { (q : List (List ℕ)) → IsSome (get path_cmp disk_entries.old q) → IsSome (get path_cmp disk_entries.new q) }
{
    match disk_entries.get_mut(path) {
        Some(disk_entry) => disk_entry.leave(),
        None => Content::Absent,
    }
}

/// Has a entry at the path, with nothing there where there was none. No place changes.
pub(crate) fn reserve(disk_entries: &mut DiskEntries, path: &Path) -> Result<(), OutOfMemory>
    requires { path.now ≢ [] }
    ensures same { (q : List (List ℕ)) → place_at disk_entries.new q ≡ place_at disk_entries.old q }
    ensures there { OnOk result (IsSome (get path_cmp disk_entries.new path.now)) }
{
    if disk_entries.contains_key(path) {
        return Ok(());
    }
    put_disk_entry(disk_entries, path, DiskEntry::durable(Content::Absent))?;
    Ok(())
}

/// Puts a file at the path, which has a entry, as a rename does.
pub(crate) fn reach_at(disk_entries: &mut DiskEntries, path: &Path, file: Content, durable: bool)
    requires some { path.now ≢ [] }
    requires there { IsSome (get path_cmp disk_entries.old path.now) }
    ensures { (from : Place) → from.node ≡ node_of file → (q : List (List ℕ)) → place_at disk_entries.new q
        ≡ put path.now (reached_place true durable from (place_at disk_entries.old path.now)) (place_at disk_entries.old) q }
{
    if let Some(disk_entry) = disk_entries.get_mut(path) {
        disk_entry.reach(file, durable);
    }
}

/// The name of a path in a folder, where it is directly in it.
pub(crate) fn name_in<'a>(dir: &Path, path: &'a Path) -> Option<&'a [u8]>
    ensures name { option_copied result ≡ child_name dir.now path.now }
    ensures path { IfSome result (λ name. IsPath (dir.now ++ name.now ∷ [])) }
    ensures named { IfSome result (λ name. IsName name.now) }
{
    match path.names().split_last() {
        None => None,
        Some((above, last)) => {
            if dir.names().cmp(&above).is_eq() {
                Some(last)
            } else {
                None
            }
        }
    }
}

/// Whether no prefix of the path, itself counted, has an unsynced name or rename, and the path has no unsynced bytes.
pub(crate) fn is_durable_at(disk_entries: &DiskEntries, path: &Path) -> Result<bool, OutOfMemory>
    requires { path.now ≢ [] }
    ensures { IfOk result (λ durable. durable ≡ is_durable (place_at disk_entries.now) path.now) }
{
    Ok(is_synced_to(disk_entries, path)? && !has_unsynced_bytes_at(disk_entries, path))
}

// Whether no prefix of the path, itself counted, has an unsynced name or rename.
fn is_synced_to(disk_entries: &DiskEntries, path: &Path) -> Result<bool, OutOfMemory>
    ensures { IfOk result (λ synced. synced
        ≡ at_prefixes (λ q. is_synced (place_at disk_entries.now q)) path.now) }
{
    'names: for count in 0..path.depth() {
        let prefix = path.prefix(count + 1)?;
        if !is_synced_at(disk_entries, &prefix) {
            return Ok(false);
        }
    }
    Ok(true)
}

// Whether the path, which is not the root, has unsynced bytes.
fn has_unsynced_bytes_at(disk_entries: &DiskEntries, path: &Path) -> bool
    requires { path.now ≢ [] }
    ensures { result ≡ (place_at disk_entries.now path.now).unsynced_bytes }
{
    match disk_entries.get(path) {
        Some(disk_entry) => disk_entry.unsynced_bytes,
        None => false,
    }
}

// Whether the path, which is not the root, has neither an unsynced name nor an unsynced rename.
fn is_synced_at(disk_entries: &DiskEntries, path: &Path) -> bool
    requires { path.now ≢ [] }
    ensures { result ≡ is_synced (place_at disk_entries.now path.now) }
{
    match disk_entries.get(path) {
        Some(disk_entry) => !disk_entry.unsynced_name && disk_entry.unsynced_rename.is_none(),
        None => true,
    }
}

/// What stands at the path.
pub(crate) fn kind_at(disk_entries: &DiskEntries, path: &Path) -> Option<Kind>
    ensures { result ≡ kind_of (place_at disk_entries.now path.now).node }
{
    if path.is_root() {
        return Some(Kind::Dir);
    }
    match disk_entries.get(path) {
        Some(disk_entry) => content_kind(&disk_entry.content),
        None => None,
    }
}

// What the content is.
fn content_kind(content: &Content) -> Option<Kind>
    ensures { result ≡ kind_of (node_of content.now) }
{
    match content {
        Content::Absent => None,
        Content::Folder => Some(Kind::Dir),
        Content::File(pieces) => Some(Kind::File(pieces.size())),
    }
}

/// The bytes of the file at the path, where one stands there.
pub(crate) fn bytes_at<'a>(disk_entries: &'a DiskEntries, path: &Path) -> Option<&'a Pieces>
    ensures { MatchOption result (is_file (place_at disk_entries.now path.now).node ≡ false)
        (λ bytes. (place_at disk_entries.now path.now).node ≡ Some (file bytes.now)) }
{
    if path.is_root() {
        return None;
    }
    match disk_entries.get(path) {
        Some(disk_entry) => file_bytes(&disk_entry.content),
        None => None,
    }
}

// The bytes of a file.
fn file_bytes(content: &Content) -> Option<&Pieces>
    ensures { MatchOption result (is_file (node_of content.now) ≡ false)
        (λ bytes. node_of content.now ≡ Some (file bytes.now)) }
{
    match content {
        Content::File(pieces) => Some(pieces),
        _ => None,
    }
}
