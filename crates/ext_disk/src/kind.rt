/// What stands at a path of a disk.
#[derive(Clone, Copy, PartialEq, Eq)]
pub enum Kind {
    /// A folder.
    Dir,
    /// A file, with its size in bytes.
    File(u64),
}
