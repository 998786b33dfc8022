//! Layers over a host: the topmost entry at each path that nothing above it cuts off.
//!
//! A layer is a tree. At a path the entry of the topmost layer that has one there is visible, unless a layer above that
//! one has a file, a link, a whiteout or an opaque directory at a proper prefix of the path. The host is the lowest layer.
//! A whiteout is not visible itself, and an opaque directory is visible as a directory. [`visible_entries`] gives the
//! entries as they stand in the layers, [`layer`] copies them into a tree. Layers are joined by halves, so that very many
//! small layers over a large host cost little more than their entries. The commands that merge images stand on this.
#![tactic(auto)]

mod errors;
mod item;
mod joining;
pub mod laws;
mod layered;
mod overlay;

pub use errors::LayerErr;
pub use layered::{layer, visible_entries};

/// Trees that lie over a host, topmost first.
pub type Layers<C> = ext_text::ListOf<ext_tree::Tree<C>>;
