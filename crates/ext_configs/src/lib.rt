//! The configuration files of updates that a host has, and the components that have folders of their own for them.
//!
//! [`config_files`] gives the transfer files or the feature files that count: of each name the file of the first folder that has
//! an entry for it, if that is no mask. [`components`] gives the names of the components. Contracts say both as sets, which follow
//! from the tree alone. What the files say is read elsewhere. Whoever updates a host stands on this crate.
#![tactic(auto)]

mod component_names;
mod entry;
mod files;
mod folders;
mod kind;
pub mod laws;
mod search;

pub use component_names::components;
pub use files::{ConfigFile, config_files};
pub use kind::ConfigKind;
