//! What is published and how it is written down, without a device: a directory or a file of a host as a resource of a depot.
//!
//! [`read_words`] gives what is asked, [`payload_at`] what a host has there, [`places_of`] where it stands in the depot, and
//! [`check_files`] that its files fit there. [`text_of_payload`] is the text of a directory's tree. [`judge_manifest`] says
//! whether a manifest may list the resource, and [`with_listing`] gives the manifest that does. What a published resource is
//! stands in the definitions, and laws say what follows for who takes it. The crate that writes resources into a folder stands
//! on this one.
#![tactic(auto)]

mod asked;
pub mod laws;
mod manifest;
mod payload;
mod places;
mod refusal;
mod words;

pub use asked::Asked;
pub use manifest::{MOST_TEXT, ManifestErr, judge_manifest, size_with_listing, with_listing};
pub use payload::{Payload, PayloadErr, payload_at, text_of_payload};
pub use places::{Places, PlacesErr, check_files, places_of};
pub use refusal::{PubRefusal, number, published_text, refusal_text};
pub use words::{AskErr, read_words};
