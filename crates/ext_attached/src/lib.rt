//! What is attached to a host: the state of a portable service, and the host without one of them.
//!
//! [`state_of`] tells whether an image is attached. [`detach`] plans the host without the attachment of a name, and [`without`]
//! gives the host without all attachments that attaching an image anew takes away, whose paths [`paths_without`] lists. All are
//! exact: a host without attachments is said as a function of the host. The host of a plan is valid and drawn from the host.
//! [`least_locked`] and those beside it find the least path that is in the way. The crates that attach services stand on this one.
#![tactic(auto)]

mod detached;
mod detaching;
mod errors;
mod going;
pub mod laws;
mod least;
mod state;
mod taking;

pub use detaching::detach;
pub use errors::DetachErr;
pub use least::{least_blocking, least_locked, least_standing};
pub use state::{State, is_attached, state_of, state_with};
pub use taking::{has_earlier, paths_without, without};
