//! Transfer files: which resources an update takes over from where into which directory, by sysupdate.d(5).
//!
//! [`read_transfer`] is exact: it gives the [`Transfer`] that a file says on a host, or the file's first fault with its line and
//! its key. [`read_feature`] does the same for a feature file. A [`Component`] is a name whose folders have names too. Whoever
//! updates a host stands on this.
#![tactic(auto)]

mod choices;
mod component;
mod err;
mod feature;
pub mod laws;
mod numbers;
mod paths;
mod patterns;
mod reading;
mod specifiers;
mod transfer;
mod versions;

pub use component::Component;
pub use err::{TransferErr, TransferFault};
pub use feature::{FeatureErr, FeatureFault, read_feature};
pub use reading::read_transfer;
pub use transfer::{Location, Patterns, ResourceType, Transfer};
