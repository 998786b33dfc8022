// Folders and files that a case puts on a disk.
ghost use Rattle.std.specs.Prelude.{◌≡◌, ◌∷◌, ◌++◌, [], IsTrue, IfOk};
ghost use Rattle.ext_disk.specs.Calls.{make_file, MayCall};

use crate::disk_calls::call_text;
use ext_case::{Trouble, append_number, name, number, one, path, string, two_and_more, written};
use ext_disk::{Disk, Kind, MemoryDisk};
use ext_io::Failed;
use ext_store_files::{make_folder, sync_folder, write_file};
use ext_text::{Name, Path, Text, Words};
use std::alloc::Global;

/// A path, cut before its last name. Errors: `Unreadable` where it has none.
pub fn cut(alloc: Global, bytes: &[u8]) -> Result<(Path, Name), Trouble> {
    let (dir, last) = match bytes.iter().rposition(|byte| *byte == b'/') {
        Some(at) => around(bytes, at),
        None => (b"".as_slice(), bytes),
    };
    let dir = path(alloc, &Text::from_bytes(alloc, dir)?)?;
    let last = name(alloc, &Text::from_bytes(alloc, last)?)?;
    Ok((dir, last))
}

fn around(bytes: &[u8], at: usize) -> (&[u8], &[u8]) {
    match (bytes.get(..at), bytes.get(at.saturating_add(1)..)) {
        (Some(before), Some(after)) => (before, after),
        _ => (bytes, b""),
    }
}

/// The path of a name in a folder. Errors: `Unreadable` where it would be too long.
pub fn below(dir: &Path, name: &Name) -> Result<Path, Trouble>
    ensures { IfOk result (λ path. path ≡ dir.now ++ name.now ∷ []) }
{
    match dir.child(name) {
        Ok(path) => Ok(path),
        Err(_) => Err(Trouble::Unreadable("the path is too long")),
    }
}

/// Whether the folder is there, and nothing of the name in it.
pub(crate) fn is_free<D: Disk>(
    disk: &mut D,
    dir: &Path,
    name: &Name,
    path: &Path,
) -> Result<bool, Failed>
    requires { path.now ≡ dir.now ++ name.now ∷ [] }
    ensures { IfOk result (λ free. IsTrue free → MayCall (make_file path.now) (D.state disk.new)) }
{
    let folder = disk.kind(dir)?;
    let there = disk.kind(path)?;
    Ok(folder == Some(Kind::Dir) && there == None)
}

// What is put on a disk.
#[derive(Clone, Copy)]
enum Standing<'a> {
    Folder,
    // A file of these bytes, which are synced.
    File(&'a [u8]),
    // A file without bytes, which is not synced.
    Empty,
}

/// `folder PATH`, `file PATH BYTES`, `files PATH COUNT` or `sync PATH`: makes a folder, a file or so many empty ones whose names are
/// numbers from 0 on, in the place of a file that stood there, with the folders above it; or syncs the names in a folder.
/// Errors: `Unreadable` where it can't stand there or the disk fails.
pub fn put_on(alloc: Global, disk: &mut MemoryDisk, arguments: &[Text]) -> Result<(), Trouble> {
    let (kind, at, rest) = two_and_more(arguments)?;
    match string(kind)? {
        "folder" => put(alloc, disk, at.bytes(), Standing::Folder),
        "file" => put(alloc, disk, at.bytes(), Standing::File(one(rest)?.bytes())),
        "files" => put_files(alloc, disk, at, number(one(rest)?, u64::MAX)?),
        "sync" => told(sync_there(disk, &path(alloc, at)?)),
        _ => Err(Trouble::Unreadable("no such thing on a disk")),
    }
}

fn put_files(alloc: Global, disk: &mut MemoryDisk, dir: &Text, count: u64) -> Result<(), Trouble> {
    for number in 0..count {
        let mut at = dir.copy()?;
        at.append(b"/")?;
        append_number(alloc, &mut at, number)?;
        put(alloc, disk, at.bytes(), Standing::Empty)?;
    }
    Ok(())
}

fn put(alloc: Global, disk: &mut MemoryDisk, at: &[u8], what: Standing<'_>) -> Result<(), Trouble> {
    let (dir, name) = cut(alloc, at)?;
    let path = below(&dir, &name)?;
    if told(put_where_free(disk, &dir, &name, &path, what))? {
        return Ok(());
    }
    make_way(alloc, disk, &dir, &path)?;
    if told(put_where_free(disk, &dir, &name, &path, what))? {
        Ok(())
    } else {
        Err(Trouble::Unreadable("something stands there"))
    }
}

fn put_where_free<D: Disk>(
    disk: &mut D,
    dir: &Path,
    name: &Name,
    path: &Path,
    what: Standing<'_>,
) -> Result<bool, Failed>
    requires { path.now ≡ dir.now ++ name.now ∷ [] }
{
    if !is_free(disk, dir, name, path)? {
        return Ok(false);
    }
    match what {
        Standing::Folder => make_folder(disk, path)?,
        Standing::File(bytes) => write_file(disk, path, bytes)?,
        Standing::Empty => disk.make_file(path)?,
    }
    Ok(true)
}

// Makes the folders that are missing, and removes what stands at the path, where it may be removed.
fn make_way(alloc: Global, disk: &mut MemoryDisk, dir: &Path, path: &Path) -> Result<(), Trouble> {
    for depth in 1..=dir.depth() {
        let folder = dir.prefix(depth)?;
        ask(alloc, disk, b"make_dir", &folder)?;
    }
    ask(alloc, disk, b"remove", path)
}

fn ask(alloc: Global, disk: &mut MemoryDisk, call: &[u8], path: &Path) -> Result<(), Trouble> {
    let mut words = Words::new(alloc);
    words.push(written(alloc, call)?)?;
    words.push(written(alloc, path.text())?)?;
    let _reply = call_text(alloc, disk, words.as_slice())?;
    Ok(())
}

fn sync_there<D: Disk>(disk: &mut D, dir: &Path) -> Result<(), Failed> {
    match disk.kind(dir)? {
        Some(Kind::Dir) => sync_folder(disk, dir),
        Some(Kind::File(_)) | None => Ok(()),
    }
}

/// The outcome of a call that a case asks for and that may not fail.
pub(crate) fn told<T>(outcome: Result<T, Failed>) -> Result<T, Trouble> {
    match outcome {
        Ok(value) => Ok(value),
        Err(Failed) => Err(Trouble::Unreadable("the disk failed")),
    }
}
