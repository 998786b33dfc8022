//! The disk: the folder in which the store stands, and what a stop may leave of it.
//!
//! A [`Disk`] tells contracts what stands at each path, which names and bytes are not synced, and what a stop at each
//! moment of its past may have left. What is promised of stops anywhere above comes from here: `laws` says what holds over
//! any disk, and the lemmas for callers compose calls. [`MemoryDisk`] tells everything, fails where it is told to, and
//! gives the disk that a stop leaves. It serves tests. The real folder is another crate's. The crate that keeps the store
//! stands on this one.
#![tactic(auto)]

mod deed;
mod disk;
mod disk_call;
mod disk_entries;
mod disk_entry;
mod history;
mod kind;
pub mod laws;
mod list_err;
mod listing;
mod memory_disk;
mod meter;
mod pick;
mod pieces;
mod stopped;
mod syncing;

pub use disk::Disk;
pub use disk_call::{DiskCall, DiskOp};
pub use kind::Kind;
pub use list_err::ListErr;
pub use memory_disk::MemoryDisk;
pub use pick::Pick;
