//! What an update takes from the depot.
//!
//! [`resources`] finds, for each transfer that has no instance of the version that is coming, the [`Resource`] that its source
//! offers: a file by its stamp, a directory by its tree, under the name that it is written by. It reads no file's bytes, only the
//! texts of trees, and compares their digests with the listed ones. It is exact: the resources, or the first reason against them.
//! Whoever updates a host stands on this.
#![tactic(auto)]

mod content;
mod lacking;
pub mod laws;
mod naming;
mod reading;
mod resource;
mod resource_err;

pub use reading::resources;
pub use resource::{Content, Resource};
pub use resource_err::ResourceErr;
