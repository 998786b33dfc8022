//! The order of versions: the dotted numbers, words and marks by which releases call themselves.
//!
//! Every text is ordered. [`is_version`] says which texts are versions. A [`Version`] is a text in this order, for what
//! sorts versions or keeps them as keys. Its copy alone takes memory. The command that compares two texts, and whatever
//! chooses the newest of several versions, stands on this.
#![tactic(auto)]

mod comparing;
pub mod laws;
mod number;
mod ordered;
mod token;
mod version;

pub use comparing::{compare, order};
pub use ordered::Version;
pub use version::is_version;
