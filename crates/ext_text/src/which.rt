/// Which limit was passed.
#[derive(Clone, Copy, Debug, PartialEq, Eq)]
pub enum Which {
    /// The entries of a tree or of a host: 262,144.
    Entries,
    /// The bytes of all files of a host: 4,294,967,296.
    Bytes,
    /// The bytes of one file: 1,073,741,824.
    File,
    /// The names of a path, 64, or its bytes, 4,096.
    Path,
    /// The bytes of a manifest or of a tree text in the depot: 67,108,864.
    Text,
    /// The bytes of the index of a generation: 134,217,728.
    Index,
    /// The number of a generation: 4,294,967,295.
    Generations,
}
