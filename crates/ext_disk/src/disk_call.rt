use ext_text::Path;

/// Which of its calls a disk was asked for.
#[derive(Clone, Copy, PartialEq, Eq)]
pub enum DiskOp {
    /// The names in a folder.
    List,
    /// What stands at a path.
    Kind,
    /// Bytes of a file.
    Read,
    /// A new folder.
    MakeDir,
    /// A new file.
    MakeFile,
    /// More bytes of a file.
    Append,
    /// A file's bytes synced.
    SyncFile,
    /// A folder's names synced.
    SyncDir,
    /// A file moved in its folder.
    Rename,
    /// A file or an empty folder removed.
    Remove,
}

/// A call that a disk in memory was asked for.
#[derive(Drop)]
pub struct DiskCall {
    /// Which call it was.
    pub op: DiskOp,
    /// Its path; of a rename the path that the file was moved from.
    pub path: Path,
    /// The room of a read's buffer, or how many bytes were to be appended; 0 for every other call.
    pub bytes: u64,
}
