//! Generations: a host is kept in a store, and carried through stops.
//!
//! A store holds one generation after another of a host, and `current` names the one that counts. [`open`] gives it, a
//! change is prepared beside it, and [`commit`] switches to it. So a stop at any moment leaves the one or the other, whole.
//! What a disk stands for, now and after a stop, is said in states. No crate above has to know what lies where in the store
//! folder. [`check`] compares every file of a host with its stamp. The crates that run commands and that publish stand on
//! this one.
#![tactic(auto)]

mod bad_store;
mod checking;
mod committing;
mod errors;
pub mod laws;
mod opened;
mod opening;
mod prepared;
mod preparing;
mod syncing;
mod verified;

pub use bad_store::BadStore;
pub use checking::check;
pub use committing::commit;
pub use errors::StoreErr;
pub use ext_store_files::{GenShelf, file, piece, verify};
pub use opened::Opened;
pub use opening::open;
pub use prepared::Prepared;
pub use preparing::prepare;
