//! Portable services before they are attached: the image of one, the prefixes of its units, and the units themselves.
//!
//! [`image_at`] tells where an image is, and [`body_at`] what it is: its tree and what its release file assigns. [`prefixes_of`]
//! and [`first_forbidden`] tell which prefixes count and which of them the image forbids, [`units_in`] the units of a tree, and
//! [`units_of`] all three in one. [`inspect`] tells what a service is. Contracts say each exactly, a unit by its own name. Whoever
//! attaches services stands on this crate; the tree in which it looks for units need not be that of the image alone.
#![tactic(auto)]

mod body;
mod choosing;
mod directories;
mod errors;
mod image;
mod image_name;
mod inspected;
mod inspecting;
pub mod laws;
mod prefixes;
mod searching;
mod text_set;
mod unit_entry;
mod unit_file;
mod unit_names;

pub use body::{Body, body_at, body_of, tree_at};
pub use choosing::units_of;
pub use errors::{BodyErr, InspectErr, UnitsErr};
pub use image::{Image, image_at};
pub use image_name::{first_part, last_name};
pub use inspected::Inspect;
pub use inspecting::inspect;
pub use prefixes::{Prefixes, first_forbidden, prefixes_of};
pub use searching::units_in;
pub use unit_file::{UnitFile, Units, names_of};
