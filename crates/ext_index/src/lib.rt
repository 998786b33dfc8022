//! The index of a generation: what a store lists of a host, its text, and how long that is.
//!
//! An index is a text that says of a host what stands at each path, which images are merged and attached, and which files an
//! update left, and of each file of it where the store keeps the bytes. Text 3 is written where an entry has an owner other
//! than root or a capability, and else text 2. Text 1, without hierarchies and past trees, is defined beside them. The lines
//! come from the crate below. This one has their order and their counts.
#![tactic(auto)]

mod counting;
mod items;
pub mod laws;
mod owners;
mod printing;
mod reading;
mod sections;
mod writing;
mod wrong;

pub use ext_index_reader::IndexErr;
pub use reading::{MOST_INDEX_BYTES, read_index};
pub use writing::{index_size, write_index, written_text};
