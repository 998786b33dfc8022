//! Views: the extensions of a host, merged into its hierarchies.
//!
//! [`survey`] tells each image of a class that a host has, and whether it fits. [`merge`] plans the host in which those that
//! fit lie over the base at the hierarchies of their class, [`unmerge`] the host without them, and [`refresh`] both in one.
//! These are planners: they read a host and the bytes of its release files, and give the host that is wanted, which is
//! valid and has no kept file but those of the host before. Contracts say of each path what the merged host has there. Who
//! looks at the layers of a view by himself takes [`chosen`] images of [`survey_of`] a base, and [`image_at`] the place of
//! each. The commands that merge extensions stand on this crate.
#![tactic(auto)]

mod errors;
mod hierarchies;
mod image;
mod inside;
mod judging;
pub mod laws;
mod layering;
mod layers;
mod merging;
mod outcome;
mod replaced;
mod surveyed;
mod surveying;
mod unmerging;
mod view;

pub use errors::ViewErr;
pub use hierarchies::hierarchies_of;
pub use image::image_at;
pub use inside::entries_inside;
pub use merging::{chosen, merge, refresh};
pub use outcome::Merge;
pub use surveyed::{SurveyItem, SurveyKind};
pub use surveying::{base_of, survey, survey_of};
pub use unmerging::unmerge;

/// What a host has to merge, in the order of versions of the names.
pub type Survey = ext_text::ListOf<SurveyItem>;
