//! Portable services attached with extensions: the host with an image attached, whose units are looked for in the image and in
//! system extensions over it, as a plan.
//!
//! It is exact: what is attached is what [`attach_body`](ext_port::attach_body) attaches, with the tree in which units are
//! looked for and the further lines of the drop-ins that the extensions give; and the refusals come in a stated order. Nothing of an
//! extension is linked, copied or recorded. Laws say that without extensions it is what [`attach_image`](ext_port::attach_image) gives.
#![tactic(auto)]

mod attaching;
mod errors;
mod extending;
mod extension;
mod file_name;
mod judging;
pub mod laws;
mod lines;
mod reading;
mod unit_tree;

pub use attaching::attach_images;
pub use errors::{ExtWhy, PortExtErr};
pub use extending::Extensions;
