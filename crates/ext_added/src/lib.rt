//! What attaching a portable service adds to a host: its units, the drop-ins of its services, and its image where that stands
//! outside the search directories.
//!
//! [`profile_of`] looks a profile up and [`attaching_of`] gathers what is made of an [`Ask`], an image and its units. [`tops_of`]
//! tells where something is put, [`ways_of`] the directories above, and [`pieces_of`] what is put there. There is one definition of
//! what is added: the tree in which units were looked for, and the further lines of each drop-in, are given. The crate that plans
//! attachments stands on this one.
#![tactic(auto)]

mod ask;
mod attaching;
mod destination;
mod drop_in;
mod image;
mod link_text;
mod pieces;
mod profile;
mod services;
mod tops;
mod units;

pub use ask::{Ask, CopyMode};
pub use attaching::{Attaching, attaching_of};
pub use pieces::pieces_of;
pub use profile::{Profile, profile_of};
pub use services::has_services;
pub use tops::{tops_of, ways_of};
