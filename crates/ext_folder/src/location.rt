use crate::folder_err::FolderErr;
use ext_lines::allocated;
use ext_text::{OutOfMemory, Path};

// How many bytes most paths have at most, with the slash before them.
const USUAL_BYTES: usize = 64;

/// The system's path of what stands at a path below a root. An empty root names no folder, and neither does any path
/// below it: the system finds nothing at the empty path.
///
/// # Errors
/// `NotUtf8` and `OutOfMemory`.
pub(crate) fn location(root: &Vec<u8>, path: &Path) -> Result<String, FolderErr> {
    text_of(joined(root, path)?)
}

/// The system's path of the root itself.
///
/// # Errors
/// As of `location`.
pub(crate) fn folder_location(root: &Vec<u8>) -> Result<String, FolderErr> {
    text_of(allocated(root.clone())?)
}

fn text_of(bytes: Vec<u8>) -> Result<String, FolderErr> {
    match String::from_utf8(bytes) {
        Ok(location) => Ok(location),
        Err(_not_text) => Err(FolderErr::NotUtf8),
    }
}

// The root, and the path after a slash. Without the test for an empty root that would be a path from the system's root.
fn joined(root: &Vec<u8>, path: &Path) -> Result<Vec<u8>, OutOfMemory> {
    let room = root.len().saturating_add(USUAL_BYTES);
    let mut bytes = Vec::with_capacity(*root.allocator(), room)?;
    bytes.extend_from_slice(root)?;
    if !bytes.is_empty() && !path.is_root() {
        bytes.push(b'/')?;
        path.append_to(&mut bytes)?;
    }
    Ok(bytes)
}

/// Whether a location is that of a path below a root.
pub(crate) fn is_location(location: &str, root: &[u8], path: &Path) -> bool {
    match location.as_bytes().strip_prefix(root) {
        Some(rest) => is_below(rest, path),
        None => false,
    }
}

// Whether a text is that of a path after a slash; the empty text is the root's.
fn is_below(text: &[u8], path: &Path) -> bool {
    if path.is_root() {
        return text.is_empty();
    }
    match text.strip_prefix(b"/".as_slice()) {
        Some(rest) => rest == path.text(),
        None => false,
    }
}

/// Whether a location is another one, or lies below it.
pub(crate) fn is_at_or_below(location: &str, other: &str) -> bool {
    match location.strip_prefix(other) {
        Some(rest) => rest.is_empty() || rest.starts_with('/'),
        None => false,
    }
}
