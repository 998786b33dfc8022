//! The words that every other crate speaks: texts, names, paths, modes, digests and lists of them, and architectures,
//! scopes and classes of images.
//!
//! A value of one of these types has been read: a [`Name`] is a name by the rule of names, a [`Path`] is within its
//! limits, a [`Mode`] is one. Contracts see each as its bytes, its names or its number. Every crate that speaks of files,
//! trees, hosts or commands stands on this one.
#![tactic(auto)]

mod absolute;
mod arch;
mod class;
mod digest;
mod extension;
mod joining;
pub mod laws;
mod list;
mod mode;
mod name;
mod order;
mod parts;
mod path;
mod path_ref;
mod plain;
mod prefix;
mod scope;
mod sorted_paths;
mod text;
mod text_order;
mod which;

pub use arch::Arch;
pub use class::Class;
pub use digest::Digest;
pub use ext_lines::OutOfMemory;
pub use extension::Extension;
pub use list::ListOf;
pub use mode::Mode;
pub use name::{Name, NameErr};
pub use path::{Path, PathErr};
pub use path_ref::PathRef;
pub use scope::Scope;
pub use sorted_paths::SortedPaths;
pub use text::Text;
pub use which::Which;

/// A list of names.
pub type Names = ListOf<Name>;

/// A list of paths.
pub type Paths = ListOf<Path>;

/// A list of texts, each the line of a text.
pub type Lines = ListOf<Text>;

/// A list of texts, each a word of a command.
pub type Words = ListOf<Text>;
