// What stands on a disk in memory, path by path.
use crate::disk_calls::list;
use crate::placing::below;
use ext_case::{Trouble, append_line, append_str, written};
use ext_disk::MemoryDisk;
use ext_store_files::{Found, read_file};
use ext_text::{Name, Path, Text};
use std::alloc::Global;

// As many paths of a disk are looked at at most.
const MOST_PATHS: u32 = 100_000;

// As many bytes of a file are looked at at most.
const MOST_BYTES: usize = 67_108_864;

/// What stands at a path: a file of these bytes, or a folder.
#[derive(Drop)]
pub struct Spot {
    /// The path.
    pub at: Path,
    /// The bytes of a file.
    pub bytes: Option<Text>,
}

/// What stands on a disk, a folder before what is in it. The root is not told.
/// Errors: `Unreadable` where the disk fails or there is too much on it.
pub fn spots_on(alloc: Global, disk: &mut MemoryDisk) -> Result<Vec<Spot>, Trouble> {
    let mut spots = Vec::new(alloc);
    let mut left = Vec::new(alloc);
    left.push(Path::root(alloc))?;
    for _ in 0..MOST_PATHS {
        match left.pop() {
            Some(at) => push_spot(alloc, disk, at, &mut left, &mut spots)?,
            None => return Ok(spots),
        }
    }
    Err(Trouble::Unreadable("too many paths"))
}

// Adds what stands at a path, and puts what is in a folder before what is left to be looked at.
fn push_spot(
    alloc: Global,
    disk: &mut MemoryDisk,
    at: Path,
    left: &mut Vec<Path>,
    spots: &mut Vec<Spot>,
) -> Result<(), Trouble> {
    let bytes = match list(alloc, disk, &at, &at) {
        Ok(Some(names)) => {
            push_below(&at, names.as_slice(), left)?;
            None
        }
        Ok(None) => Some(bytes_at(alloc, disk, &at)?),
        Err(_) => return Err(Trouble::Unreadable("the disk failed")),
    };
    if !at.is_root() {
        spots.push(Spot { at, bytes })?;
    }
    Ok(())
}

// The first name comes last.
fn push_below(dir: &Path, names: &[Name], left: &mut Vec<Path>) -> Result<(), Trouble> {
    for name in names.iter().rev() {
        left.push(below(dir, name)?)?;
    }
    Ok(())
}

fn bytes_at(alloc: Global, disk: &mut MemoryDisk, at: &Path) -> Result<Text, Trouble> {
    match read_file(alloc, disk, at, MOST_BYTES) {
        Ok(Found::File(bytes)) => Ok(bytes),
        _ => Err(Trouble::Unreadable("a file can't be read")),
    }
}

/// A line for each spot: `folder PATH`, or `file PATH BYTES`.
pub fn whole_text(alloc: Global, spots: &[Spot]) -> Result<Text, Trouble> {
    let mut text = written(alloc, b"")?;
    for spot in spots {
        append_spot(&mut text, spot)?;
    }
    Ok(text)
}

fn append_spot(text: &mut Text, spot: &Spot) -> Result<(), Trouble> {
    match &spot.bytes {
        None => append_str(text, "folder ")?,
        Some(_) => append_str(text, "file ")?,
    }
    text.append(spot.at.text())?;
    match &spot.bytes {
        Some(bytes) if !bytes.bytes().is_empty() => {
            append_str(text, " ")?;
            append_line(text, bytes.bytes())
        }
        _ => append_line(text, b""),
    }
}

/// Whether the text of a path is that of another, or of one below it.
pub fn is_at_or_below(at: &[u8], path: &[u8]) -> bool {
    match at.strip_prefix(path) {
        Some(rest) => rest.is_empty() || rest.starts_with(b"/"),
        None => false,
    }
}
