use ext_text::{Paths, SortedPaths};

/// The items of an update, each by its path.
#[derive(Drop)]
pub struct Items {
    /// The files and directories that are written, in any order.
    pub resources: Paths,
    /// The links that are written, in any order.
    pub links: Paths,
    /// What is taken away.
    pub removed: SortedPaths,
    /// What stays, in any order.
    pub staying: Paths,
}
