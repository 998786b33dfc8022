//! Installed versions: what of the resources of transfers a host has.
//!
//! [`installed`] looks at the names in the target of each transfer, and gives each entry that is a resource of a version, and
//! the versions of which each transfer has one. Contracts say what it finds as a set, and a law that this set has one list.
//! Whoever updates a host stands on this.
#![tactic(auto)]

mod instance;
pub mod laws;
mod listing;
mod resource;
mod target;

pub use instance::{Instance, Instances};
pub use listing::installed;
