//! Available versions: what the sources of transfers offer, by the manifests in the depot.
//!
//! [`offers`] reads the manifest of each source and gives its [`Offers`], each version once, or says which manifest is none.
//! [`available`] gives the versions that each source offers and that no transfer sets a limit above. Both are exact. Whoever
//! updates a host chooses among these.
#![tactic(auto)]

mod availability;
mod candidates;
pub mod laws;
mod least;
mod offer;
mod offers_err;
mod patterns;
mod reading;

pub use availability::available;
pub use offer::{Offer, Offers};
pub use offers_err::OffersErr;
pub use reading::offers;
