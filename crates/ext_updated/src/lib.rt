//! The tree after an update: what is written, taken away and let stay, and what stands where then.
//!
//! [`clash`] gives the least path of the items of an update that is in the way of another one, or of what stands in the tree.
//! [`updated`] gives the tree without the removed paths and with the pieces that are put in, each at its path, and
//! [`manifest_at`] the manifest of what stands at a path. All three are exact. Laws say what stays, what stands as it was put,
//! and that a manifest is kept over any changes of a host that leave its path alone. Whoever plans an update stands on this, and
//! whoever says what many commands leave.
#![tactic(auto)]

mod clashing;
mod copying;
mod gathering;
mod items;
pub mod laws;
mod manifesting;
mod paths_above;
mod piece;
mod putting;
mod updating;

pub use clashing::clash;
pub use copying::copy_without;
pub use gathering::{append_copies, both};
pub use items::Items;
pub use manifesting::manifest_at;
pub use piece::Piece;
pub use updating::updated;
