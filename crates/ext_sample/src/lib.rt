//! A depot that is made: a host and images for it, as many as are wanted, as a sample of what a store takes in.
//!
//! [`sample_depot`] lists the files of the two resources, makes the tree of each, and puts the files and the trees' texts
//! into a depot in memory. It takes n log n comparisons of paths for n files. The command `sample` stands on it.
#![tactic(auto)]

mod depot;
mod files;
pub mod laws;
mod numbered;
mod paths;
mod tree;

pub use depot::sample_depot;
