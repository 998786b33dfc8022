//! Where what shows at a path comes from, layer by layer, and its lines.
//!
//! An [`Origin`] is a layer, an image or the base under all images, with what it has at a path: an entry, or one above the
//! path that hides what lower layers have below it. [`origins_text`] prints origins, a line each. Which layers there are
//! for a path is said by whoever finds them, and what a command replies stands on these lines.
#![tactic(auto)]

mod origin;
mod printing;

pub use origin::{Finding, Layer, Origin};
pub use printing::{append_origin, origins_text};

/// A list of origins, the topmost layer first.
pub type Origins = ext_text::ListOf<Origin>;
