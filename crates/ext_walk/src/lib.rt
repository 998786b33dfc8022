//! Walks through trees: where a path leads once links are followed.
//!
//! [`resolve`] gives the end of a walk from the root of a tree, or of an image, the part below a directory, which is not
//! copied for it. [`end_of_path`] and [`end_of_text`] give the same end as the names of an entry's own path, for whatever
//! searches a tree, and copy nothing. [`directory_at`] and [`directory_of_text`] give it where it is a directory.
//! [`next_name`] goes through the names of a directory, one after the other.
#![tactic(auto)]

pub mod laws;
mod leading;
mod parts;
mod resolving;
mod row;
mod walking;

pub use leading::{directory_at, directory_of_text};
pub use resolving::{end_of_path, end_of_text, resolve};
pub use row::{Next, next_name};
