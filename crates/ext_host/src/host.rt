use crate::held::Held;
use crate::{Attachments, Manifests, Pasts};
use ext_text::{Arch, Names, Scope};
use ext_tree::Tree;

/// What a store keeps of one machine.
#[derive(Drop)]
pub struct Host {
    /// The machine's architecture.
    pub arch: Arch,
    /// What the machine is; never `Portable`.
    pub scope: Scope,
    /// What is seen.
    pub root: Tree<Held>,
    /// The entries of the merged hierarchies as they stand under the view.
    pub lower: Tree<Held>,
    /// The merged system extensions; `None` where they are not merged.
    pub sysext: Option<Names>,
    /// The merged configuration extensions; `None` where they are not merged.
    pub confext: Option<Names>,
    /// What is attached.
    pub attached: Attachments,
    /// What updates left.
    pub kept: Manifests,
    /// The names, directly below the root, that system extensions extend.
    pub sysext_hier: Names,
    /// The names, directly below the root, that configuration extensions extend.
    pub confext_hier: Names,
    /// The hosts of before that are kept, the oldest first.
    pub past: Pasts,
}

/// What a command wants: the coming host.
#[derive(Drop)]
pub struct Plan {
    /// The host that is to be stored.
    pub next: Host,
}
