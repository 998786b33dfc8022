//! Manifests: which digest a `SHA256SUMS` lists for each name.
//!
//! A [`Sums`] is what such a text lists. Contracts see it as its names with their digests, in byte order of the names.
//! [`read_sums`] is exact: it gives that list, or the first line that is faulty. Whoever takes files from a source asks it
//! for their digests.
#![tactic(auto)]

mod entry;
mod laws;
mod merging;
mod prefix;
mod reading;
mod sorting;
mod sums;

pub use laws::{
    a_listed_digest_is_one, a_name_has_one_digest, a_text_has_a_manifest_or_a_faulty_line,
    a_text_has_one_manifest,
};
pub use reading::{SumsErr, read_sums};
pub use sums::{Listed, Sums};
