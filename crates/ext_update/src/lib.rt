//! The plan of an update and of making room, after systemd-sysupdate(8).
//!
//! [`plan_update`] takes a host, what is known of its [`Updates`] and the depot, and gives the host that an update wants: the
//! resources of a version in the targets of their transfers, the links to it, the oldest instances gone, and manifests that say
//! what was written. [`plan_vacuum`] takes a host and the instances of transfers, and gives the host with room alone. Both are
//! exact: that host, that nothing changes, or the first reason against it as an [`UpdateRefusal`]. The host is valid and drawn from
//! the one before. Laws say that one thing is wanted, that protected instances stand, and which manifests are kept. They know of no
//! commands: whoever reads these stands on this.
#![tactic(auto)]

mod arriving;
mod blocking;
mod currents;
mod draft;
mod fitting;
mod items_of;
mod keeping;
pub mod laws;
mod link_texts;
mod linking;
mod planned;
mod refusal;
mod staging;
mod update_err;
mod updates;
mod updating;
mod vacuuming;

pub use planned::{Update, Vacuum};
pub use refusal::UpdateRefusal;
pub use update_err::UpdateErr;
pub use updates::Updates;
pub use updating::plan_update;
pub use vacuuming::plan_vacuum;
