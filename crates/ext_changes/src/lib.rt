//! What differs between two trees, an earlier and a later one.
//!
//! [`changes`] gives each path at which the trees differ, in path order, and whether an entry was added there, removed or
//! changed; [`changes_below`] gives those at and below a path. Nothing is copied, and both trees are passed once. Files are
//! compared by their stamps ([`Stamped`]), so that it makes no difference where a tree has its bytes. [`changes_text`]
//! prints changes, a line each. [`owned`] gives changes that outlive the trees, and [`owned_text`] prints those. Laws say
//! what holds of every list of changes: there is one, it is empty exactly for equal trees, the other way round it is the
//! same with what was added and what was removed exchanged, and its lines tell it. Whoever tells what a merge changes, or
//! what has changed since some state, stands on this.
#![tactic(auto)]

mod change;
mod comparing;
pub mod laws;
mod owning;
mod printing;
mod sameness;
mod stamped;
mod walking;

pub use change::{Change, ChangeKind};
pub use comparing::{changes, changes_below};
pub use owning::{owned, owned_text};
pub use printing::{append_change, changes_text};
pub use stamped::Stamped;

/// A list of changes that own their paths: each path with how what stands there differs.
pub type Changes = ext_text::ListOf<(ext_text::Path, ChangeKind)>;
