//! Images of a store's trees, for Linux to mount: what is asked of a run that prints one, what it replies, and the run.
//!
//! [`print_image`] opens the store, and prints the image of what the host shows, or of what one of its marks has. It reads the index
//! of the generation and no other file. What an image is, and that it shows its tree, stands in the crate of the format; the program
//! is a thin shell over this one.
#![tactic(auto)]

mod asked;
mod buffer;
mod generation;
pub mod laws;
mod refusal;
mod run;
mod status;
mod to_sink;
mod words;

pub use asked::ImageAsk;
pub use refusal::ImageRefusal;
pub use run::print_image;
pub use status::ImageStatus;
pub use words::{UsageErr, read_words};
