//! The depot: the folder of release files, manifests and images that the program reads and never writes.
//!
//! A [`Depot`] may tell contracts which files it has. No call changes them, and a call that fails is counted, so that no
//! answer blames a depot that did nothing wrong. [`MemoryDepot`] tells everything and serves tests. The real folder is
//! another crate's. [`read_depot_text`] reads a text whole, within its limit. The crates that bring files into the store and
//! that update from sources stand on this one.
#![tactic(auto)]

mod depot;
mod depot_err;
mod depot_text;
mod memory_depot;

pub use depot::Depot;
pub use depot_err::DepotErr;
pub use depot_text::{DepotText, read_depot_text};
pub use memory_depot::MemoryDepot;
