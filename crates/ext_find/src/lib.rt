//! The search for images: which extensions and portable services a host has, where they are, and what they are.
//!
//! [`find`] looks through the search directories of a class and gives each image, mask and image file once, and where the
//! release file of an image that can be used is. Contracts say what it finds as a set: of each stem the usable entry that
//! counts first. [`why_broken`] says why one image cannot be used. [`host_release`] reads the host's own release file. The
//! crates that merge, attach and update images stand on this one. So does the search for configuration files, which asks
//! [`is_hidden`], [`is_mask`] and [`content_of_path`] of each entry.
#![tactic(auto)]

mod content;
mod directories;
mod ending;
mod extension_release;
mod finding;
mod found;
mod found_image;
mod image;
mod inside;
pub mod laws;
mod leading;
mod pick;
mod release;
mod search;
mod stem;
mod usable;
mod version;

pub use content::{Measured, is_mask};
pub use ending::is_hidden;
pub use finding::find;
pub use found::{BreakWhy, Found, FoundItem, FoundKind};
pub use image::why_broken;
pub use release::{FindErr, content_of_path, host_release};
