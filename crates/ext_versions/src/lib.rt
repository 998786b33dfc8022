//! Versions in ascending order, each once: what a host has installed and what sources offer.
//!
//! A [`Versions`] is such a list, made of versions in any order. Two that have the same versions are equal, so "the versions
//! that .." is one list. [`common`] gives those that several lists share. Whoever updates a host stands on this.
#![tactic(auto)]

mod common_versions;
pub mod laws;
mod search;
mod versions;

pub use common_versions::common;
pub use versions::Versions;
