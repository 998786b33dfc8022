//! Real folders: the disk and the depot of the program, over the files of std.
//!
//! A [`FolderDisk`] and a [`FolderDepot`] hand each call on to the system, below a folder that exists, and tell contracts
//! nothing of what stands there: what is proved of them is that they are safe, that they keep what their traits promise
//! of a device that tells nothing, and that a fault is counted where it is reported. What the system does is trusted, and
//! tests look at it. What went wrong first is kept as a [`Trouble`], for a person to read.
//!
//! A [`LockedDisk`] takes the lock on its folder at its first call, and a [`ReleasingSink`] gives one back with the first byte
//! that is written. The crate with the program puts them together.
#![tactic(auto)]

mod entry;
mod folder;
mod folder_depot;
mod folder_disk;
mod folder_err;
mod folder_lock;
mod links;
mod listing;
mod location;
mod locked_disk;
mod modes;
mod nesting;
mod noted;
mod reader;
mod releasing_sink;
mod trouble;
mod ways;
mod writer;

pub use folder_depot::FolderDepot;
pub use folder_disk::FolderDisk;
pub use folder_lock::{FolderLock, Hold, Notice};
pub use locked_disk::LockedDisk;
pub use nesting::{Nesting, nesting_of};
pub use releasing_sink::ReleasingSink;
pub use trouble::Trouble;
