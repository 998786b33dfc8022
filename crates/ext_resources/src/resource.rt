// What is taken from the depot.
use ext_text::{Name, Path};
use ext_tree::{Stamp, Tree};

/// What a resource of a version is.
#[derive(Drop)]
pub enum Content {
    /// A file of so many bytes, as the depot told, and of the listed digest. Its bytes weren't read.
    File(Stamp),
    /// A directory of these entries, read from the text of its tree, which has the listed digest. The bytes of its files weren't
    /// read.
    Directory(Tree<Stamp>),
}

/// A resource of a version, for one transfer.
#[derive(Drop)]
pub struct Resource {
    /// The place of the transfer in the list of the transfers, from 0 on.
    pub transfer: usize,
    /// The name that the first of the target's patterns makes of the version and the listed digest.
    pub name: Name,
    /// Where the resource stands, a path of the depot: that of the file, or the one below which the files of the directory are.
    pub source: Path,
    /// What it is.
    pub content: Content,
}
