// What a file of the disk has, and which calls it was asked for.
use crate::outcome::append_field;
use ext_case::{Trouble, append_line, append_str, line_of, path};
use ext_disk::{DiskCall, DiskOp, Kind, MemoryDisk};
use ext_store_files::{Found, read_file};
use ext_text::Text;
use std::alloc::Global;

// As many bytes of a file are shown at most.
const MOST_SHOWN: usize = 65_536;

/// Adds what stands at a path.
pub(crate) fn append_kind(
    alloc: Global,
    text: &mut Text,
    kind: Option<Kind>,
) -> Result<(), Trouble> {
    match kind {
        Some(Kind::Dir) => append_str(text, "folder"),
        None => append_str(text, "nothing"),
        Some(Kind::File(size)) => {
            append_str(text, "file")?;
            append_field(alloc, text, size)
        }
    }
}

/// The bytes of a file, or a line that says why there are none. Errors: `Unreadable` where it is no path.
pub fn file_text(alloc: Global, disk: &mut MemoryDisk, at: &Text) -> Result<Text, Trouble> {
    match read_file(alloc, disk, &path(alloc, at)?, MOST_SHOWN) {
        Ok(Found::File(text)) => Ok(text),
        Ok(Found::Absent) => line_of(alloc, "nothing"),
        Ok(Found::Folder) => line_of(alloc, "folder"),
        Ok(Found::TooLong) => line_of(alloc, "too long"),
        Err(_) => line_of(alloc, "a fault"),
    }
}

/// A line for each call that the disk was asked for, or for the last so many of them: which, its path, and its bytes where it has some.
pub fn calls_text(alloc: Global, disk: &MemoryDisk, count: u64) -> Result<Text, Trouble> {
    let mut text = Text::new(alloc);
    let first = disk.calls().saturating_sub(count);
    for index in first..=disk.calls() {
        if let Some(call) = disk.call(index) {
            append_call(alloc, &mut text, call)?;
        }
    }
    Ok(text)
}

fn append_call(alloc: Global, text: &mut Text, call: &DiskCall) -> Result<(), Trouble> {
    append_str(text, name_of(call.op))?;
    if !call.path.is_root() {
        append_str(text, " ")?;
        text.append(call.path.text())?;
    }
    if call.bytes > 0 {
        append_field(alloc, text, call.bytes)?;
    }
    append_line(text, b"")
}

fn name_of(op: DiskOp) -> &'static str {
    match op {
        DiskOp::List => "list",
        DiskOp::Kind => "kind",
        DiskOp::Read => "read",
        DiskOp::MakeDir => "make_dir",
        DiskOp::MakeFile => "make_file",
        DiskOp::Append => "append",
        DiskOp::SyncFile => "sync_file",
        DiskOp::SyncDir => "sync_dir",
        DiskOp::Rename => "rename",
        DiskOp::Remove => "remove",
    }
}

/// The same of the calls of one name at a path.
pub fn calls_at(alloc: Global, disk: &MemoryDisk, name: &[u8], at: &[u8]) -> Result<Text, Trouble> {
    let mut text = Text::new(alloc);
    for index in 0..disk.calls() {
        if let Some(call) = disk.call(index)
            && name_of(call.op).as_bytes() == name
            && call.path.text() == at
        {
            append_call(alloc, &mut text, call)?;
        }
    }
    Ok(text)
}
