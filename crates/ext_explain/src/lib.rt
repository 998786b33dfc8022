//! What a refresh of a view would change, and where a path in it comes from.
//!
//! [`view_changes`] gives the changes from the base of a host to what a refresh of the extensions of a class would show now, at
//! and below the hierarchies of the class. [`explain`] gives, for a path, a line for each layer of such a refresh that has an
//! entry there or hides what is below it there, the topmost first. Both read a host and the bytes of its release files, make no
//! plan, and merge nothing for an explanation. Laws say that there is one answer, and that the first line of an explanation
//! tells what the refreshed host shows. The commands that tell of a refresh before it is made stand on this crate.
#![tactic(auto)]

mod changing;
mod errors;
mod explaining;
pub mod laws;
mod searching;
mod seeing;

pub use changing::view_changes;
pub use errors::ExplainErr;
pub use explaining::explain;
