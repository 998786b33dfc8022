// Answers of the depot.
ghost use Rattle.std.specs.Prelude.{◌<◌, length};

use ext_case::{Trouble, line_of, path, size, three};
use ext_depot::{Depot, MemoryDepot};
use ext_io::Failed;
use ext_text::{Path, Text};
use std::alloc::Global;

/// What a read of `PATH AT ROOM` gives: the bytes, `nothing` where no file stands, or `a fault`. It asks for the size first.
/// Errors: `Unreadable` where the arguments are others or there is no room.
pub fn read_text(
    alloc: Global,
    depot: &mut MemoryDepot,
    arguments: &[Text],
) -> Result<Text, Trouble> {
    let (at, from, room) = three(arguments)?;
    let mut buf = vec![in alloc; b'?'; size(room)?]?;
    if buf.is_empty() {
        return Err(Trouble::Unreadable("no room"));
    }
    let from = ext_case::number(from, u64::MAX)?;
    match read_where_there(depot, &path(alloc, at)?, from, &mut buf) {
        Ok(Some(count)) => Ok(Text::from_bytes(alloc, buf.get(..count).unwrap_or(b"?"))?),
        Ok(None) => line_of(alloc, "nothing"),
        Err(Failed) => line_of(alloc, "a fault"),
    }
}

// How many bytes of the file at the path are read into the buffer, where a file stands there.
fn read_where_there<D: Depot>(
    depot: &mut D,
    path: &Path,
    at: u64,
    buf: &mut [u8],
) -> Result<Option<usize>, Failed>
    requires { 0 < length buf.old }
{
    match depot.size(path)? {
        None => Ok(None),
        Some(_size) => Ok(Some(depot.read(path, at, buf)?)),
    }
}
