// How folders of the system stand to each other.
use crate::folder::is_missing;
use crate::folder_err::FolderErr;
use crate::trouble::Trouble;
use ext_lines::allocated;
use ext_text::OutOfMemory;
use std::alloc::Global;
use std::fs::{Files, Metadata};
use std::os::unix::fs::MetadataExt;
use std::{fs, io};

// How many folders above one are looked at. Each look takes three bytes more, and the system refuses a path of 4,096.
const MOST_FOLDERS: u32 = 2048;

/// How a folder of the system stands to another one.
#[derive(Drop)]
pub enum Nesting {
    /// It is that one, or stands below it.
    Within,
    /// It is not and does not, or one of the two is missing.
    Apart,
    /// A look at it, or at a folder above it, failed, so that it can't be told.
    Unseen(Trouble),
    /// A look at the other one failed.
    OtherUnseen(Trouble),
}

/// How a folder of the system stands to another one, by device and inode of it and of each folder above it.
///
/// # Errors
/// `OutOfMemory` alone.
pub fn nesting_of<R: Files>(
    alloc: Global,
    rt: &R,
    folder: &str,
    other: &str,
) -> Result<Nesting, OutOfMemory> {
    match fs::metadata(rt, other) {
        Ok(found) => nesting_below(alloc, rt, folder, &found),
        Err(error) if is_missing(&error) => Ok(Nesting::Apart),
        Err(error) => Ok(Nesting::OtherUnseen(unseen(alloc, other, error)?)),
    }
}

fn nesting_below<R: Files>(
    alloc: Global,
    rt: &R,
    folder: &str,
    other: &Metadata,
) -> Result<Nesting, OutOfMemory> {
    let mut location = allocated(String::from_str(alloc, folder))?;
    let mut below = None;
    for _ in 0..MOST_FOLDERS {
        match fs::metadata(rt, location.as_str()) {
            Ok(found) if is_same(&found, other) => return Ok(Nesting::Within),
            // The folder above the topmost is that one again.
            Ok(found) if below == Some(inode(&found)) => return Ok(Nesting::Apart),
            Ok(found) => below = Some(inode(&found)),
            Err(error) if below.is_none() && is_missing(&error) => return Ok(Nesting::Apart),
            Err(error) => return Ok(Nesting::Unseen(unseen(alloc, location.as_str(), error)?)),
        }
        allocated(location.push_str("/.."))?;
    }
    Ok(Nesting::Apart)
}

// A look at a location that failed.
fn unseen(alloc: Global, location: &str, error: io::Error) -> Result<Trouble, OutOfMemory> {
    let location = allocated(String::from_str(alloc, location))?;
    Trouble::new(alloc, "look at", location, &FolderErr::Refused(error))
}

fn is_same(one: &Metadata, other: &Metadata) -> bool {
    inode(one) == inode(other)
}

fn inode(entry: &Metadata) -> (u64, u64) {
    (entry.dev(), entry.ino())
}
