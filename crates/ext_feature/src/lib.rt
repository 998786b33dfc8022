//! Features and transfers of updates: which features a component has, and which of its transfers are on.
//!
//! [`features`] reads the feature files of a component, and [`active`] its transfer files beside these: it gives the transfers that
//! are on, or what is wrong first. Contracts say both one file at a time. The crates that plan updates stand on this one.
#![tactic(auto)]

mod activating;
mod basis;
mod choosing;
mod errors;
mod feature;
pub mod laws;
mod listing;
mod loading;
mod reading;

pub use activating::active;
pub use errors::{ActiveErr, FeaturesErr};
pub use feature::{Feature, Features, Transfers};
pub use listing::features;
