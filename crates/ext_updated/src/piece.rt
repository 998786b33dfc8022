use ext_text::Path;
use ext_tree::{Entry, Tree};

/// What is put at a path of a tree: an entry, and what stands below it.
#[derive(Drop)]
pub struct Piece<C> {
    /// The path.
    pub path: Path,
    /// What stands at the path.
    pub top: Entry<C>,
    /// What stands below it; nothing, where the top is no directory.
    pub part: Tree<C>,
}
