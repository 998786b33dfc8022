//! Release files: the assignments by which a host, an image or a portable service says what it is.
//!
//! A [`Release`] is what an os-release or extension-release file assigns. Contracts see it as the map from each key to
//! its value. [`read_release`] is exact: it gives that map, or the first line that is faulty. Whoever matches an extension
//! with a host asks it for their keys.
#![tactic(auto)]

mod laws;
mod line;
mod reading;
mod release;
mod value;

pub use laws::{
    a_file_has_a_release_or_a_faulty_line, a_file_has_one_release, quoted_texts_are_read_back,
};
pub use reading::{ReleaseErr, read_release};
pub use release::Release;
