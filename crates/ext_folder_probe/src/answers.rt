use anyhow::bail;
use ext_depot::Depot;
use ext_disk::{Disk, Kind, ListErr};
use ext_folder::{FolderDepot, FolderDisk};
use ext_io::Failed;
use ext_text::{Names, Path};
use std::alloc::Global;
use std::str;

/// What the disk answers to a call.
pub(crate) fn disk_answer(
    alloc: Global,
    disk: &mut FolderDisk<HostRuntime>,
    call: &[&str],
) -> anyhow::Result<String> {
    match call {
        ["list", dir] => list(alloc, disk, dir),
        ["kind", at] => kind(alloc, disk, at),
        ["read", file, at, room] => read(alloc, disk, file, at.parse::<u64>()?, room),
        ["append", file, bytes] => append(alloc, disk, file, bytes),
        ["rename", from, to] => rename(alloc, disk, from, to),
        [change, at] => changed(alloc, disk, change, at),
        _ => bail!("no such call"),
    }
}

fn list(alloc: Global, disk: &mut FolderDisk<HostRuntime>, dir: &str) -> anyhow::Result<String> {
    let dir = path(alloc, dir)?;
    listed(alloc, disk.list(alloc, &dir))
}

fn kind(alloc: Global, disk: &mut FolderDisk<HostRuntime>, at: &str) -> anyhow::Result<String> {
    let at = path(alloc, at)?;
    found(alloc, disk.kind(&at))
}

fn read(
    alloc: Global,
    disk: &mut FolderDisk<HostRuntime>,
    file: &str,
    at: u64,
    room: &str,
) -> anyhow::Result<String> {
    let file = path(alloc, file)?;
    let mut buf = room_of(alloc, room)?;
    let count = disk.read(&file, at, &mut buf);
    told(alloc, count, &buf)
}

fn append(
    alloc: Global,
    disk: &mut FolderDisk<HostRuntime>,
    file: &str,
    bytes: &str,
) -> anyhow::Result<String> {
    let file = path(alloc, file)?;
    done(alloc, disk.append(&file, bytes.as_bytes()))
}

fn rename(
    alloc: Global,
    disk: &mut FolderDisk<HostRuntime>,
    from: &str,
    to: &str,
) -> anyhow::Result<String> {
    let from = path(alloc, from)?;
    let to = path(alloc, to)?;
    done(alloc, disk.rename(&from, &to))
}

// What the disk answers to a call that has a path alone.
fn changed(
    alloc: Global,
    disk: &mut FolderDisk<HostRuntime>,
    change: &str,
    at: &str,
) -> anyhow::Result<String> {
    let at = path(alloc, at)?;
    let outcome = match change {
        "make_dir" => disk.make_dir(&at),
        "make_file" => disk.make_file(&at),
        "sync_file" => disk.sync_file(&at),
        "sync_dir" => disk.sync_dir(&at),
        "remove" => disk.remove(&at),
        _ => bail!("no such call"),
    };
    done(alloc, outcome)
}

/// What the depot answers to a call.
pub(crate) fn depot_answer(
    alloc: Global,
    depot: &mut FolderDepot<HostRuntime>,
    call: &[&str],
) -> anyhow::Result<String> {
    match call {
        ["size", file] => size(alloc, depot, file),
        ["read", file, at, room] => read_depot(alloc, depot, file, at.parse::<u64>()?, room),
        _ => bail!("no such call"),
    }
}

fn size(alloc: Global, depot: &mut FolderDepot<HostRuntime>, file: &str) -> anyhow::Result<String> {
    let file = path(alloc, file)?;
    sized(alloc, depot.size(&file))
}

fn read_depot(
    alloc: Global,
    depot: &mut FolderDepot<HostRuntime>,
    file: &str,
    at: u64,
    room: &str,
) -> anyhow::Result<String> {
    let file = path(alloc, file)?;
    let mut buf = room_of(alloc, room)?;
    let count = depot.read(&file, at, &mut buf);
    told(alloc, count, &buf)
}

// So many bytes to read into.
fn room_of(alloc: Global, room: &str) -> anyhow::Result<Vec<u8>> {
    let room = room.parse::<usize>()?;
    Ok(vec![in alloc; b'?'; room]?)
}

fn path(alloc: Global, text: &str) -> anyhow::Result<Path> {
    Ok(Path::read(alloc, text.as_bytes())?)
}

fn done(alloc: Global, outcome: Result<(), Failed>) -> anyhow::Result<String> {
    match outcome {
        Ok(()) => Ok(format!(in alloc; "done")?),
        Err(Failed) => Ok(format!(in alloc; "fault")?),
    }
}

fn found(alloc: Global, kind: Result<Option<Kind>, Failed>) -> anyhow::Result<String> {
    match kind {
        Ok(Some(Kind::Dir)) => Ok(format!(in alloc; "folder")?),
        Ok(Some(Kind::File(size))) => Ok(format!(in alloc; "file {size}")?),
        Ok(None) => Ok(format!(in alloc; "nothing")?),
        Err(Failed) => Ok(format!(in alloc; "fault")?),
    }
}

fn sized(alloc: Global, size: Result<Option<u64>, Failed>) -> anyhow::Result<String> {
    match size {
        Ok(Some(size)) => Ok(format!(in alloc; "file {size}")?),
        Ok(None) => Ok(format!(in alloc; "nothing")?),
        Err(Failed) => Ok(format!(in alloc; "fault")?),
    }
}

fn told(alloc: Global, count: Result<usize, Failed>, buf: &[u8]) -> anyhow::Result<String> {
    match count {
        Ok(count) => {
            let bytes = str::from_utf8(buf.get(..count).unwrap_or(b""))?;
            Ok(format!(in alloc; "bytes {bytes}")?)
        }
        Err(Failed) => Ok(format!(in alloc; "fault")?),
    }
}

fn listed(alloc: Global, names: Result<Names, ListErr>) -> anyhow::Result<String> {
    let mut answer = format!(in alloc; "names")?;
    match names {
        Ok(names) => {
            for name in names.as_slice() {
                answer.push(' ')?;
                answer.push_str(str::from_utf8(name.bytes())?)?;
            }
            Ok(answer)
        }
        Err(ListErr::OutOfMemory) => Ok(format!(in alloc; "out of memory")?),
        Err(ListErr::Failed) => Ok(format!(in alloc; "fault")?),
    }
}
