use ext_text::Path;

/// How what stands at a path differs.
#[derive(Clone, Copy, PartialEq, Eq)]
pub enum ChangeKind {
    /// Only the later tree has an entry.
    Added,
    /// Only the earlier tree has one.
    Removed,
    /// Both have one, and its kind, its mode, its owner, its file's capability, its file's stamp or its link's target differs.
    Changed,
}

/// A path at which two trees differ, and how. The path is borrowed: from the tree that has an entry there, or from whoever
/// named it.
#[derive(Clone, Copy)]
pub struct Change<'a> {
    /// The path.
    pub path: &'a Path,
    /// How what stands there differs.
    pub kind: ChangeKind,
}
