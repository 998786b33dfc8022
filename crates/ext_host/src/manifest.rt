use crate::Items;
use ext_text::{Digest, Path};

/// A file of a manifest.
#[derive(Drop)]
pub struct Item {
    /// The file's path, from the host's root.
    pub path: Path,
    /// The digest of its bytes.
    pub digest: Digest,
}

/// What an update left at a path: the files at and below it.
#[derive(Drop)]
pub struct Manifest {
    /// The path of the resource.
    pub path: Path,
    /// Its files.
    pub items: Items,
}
