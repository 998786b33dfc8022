use crate::held::Held;
use crate::{Attachments, Manifests};
use ext_text::Names;
use ext_tree::Tree;

/// A host of before, which is kept to go back to. It has the hierarchies of the host that keeps it.
#[derive(Drop)]
pub struct Past {
    /// The number of the generation that it was.
    pub generation: u32,
    /// What was seen.
    pub root: Tree<Held>,
    /// What lay under the merged hierarchies.
    pub lower: Tree<Held>,
    /// The merged system extensions; `None` where they were not merged.
    pub sysext: Option<Names>,
    /// The merged configuration extensions; `None` where they were not merged.
    pub confext: Option<Names>,
    /// What was attached.
    pub attached: Attachments,
    /// What updates had left.
    pub kept: Manifests,
}
