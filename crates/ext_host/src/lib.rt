//! Hosts: what a store keeps of one machine, and what a command wants of it.
//!
//! A [`Host`] has the tree that is seen, the tree that lies under the merged hierarchies, the attachments, the manifests
//! and the trees of the past. Its files are [`Held`]: a stamp, and a body that is here, kept in a store or still in the
//! depot. A [`Shelf`] gives the bytes of a held file. What a valid host is, which paths lie in a hierarchy of a class, what
//! the base is and what is drawn from a host stand here once, for the crates that search, plan and store.
#![tactic(auto)]

mod attachment;
mod base;
mod body;
mod copying;
mod damage;
mod depot_bodies;
mod depot_path;
mod held;
mod here_text;
mod hierarchies;
mod home;
mod host;
pub mod laws;
mod limits;
mod locks;
mod manifest;
mod past;
mod read_only;
mod shelf;
mod sizes;
mod stamped;
mod stamping;
mod touch;

pub use attachment::Attachment;
pub use body::Body;
pub use copying::{Listed, copy_of_list, copy_of_merged};
pub use damage::Damage;
pub use depot_bodies::from_depot;
pub use depot_path::DepotPath;
pub use held::Held;
pub use here_text::HereText;
pub use hierarchies::{MOST_HIERARCHIES, default_hierarchies, is_in};
pub use home::{Home, LAST_GENERATION, MOST_FILES};
pub use host::{Host, Plan};
pub use limits::passed_limit;
pub use manifest::{Item, Manifest};
pub use past::Past;
pub use read_only::read_only_at;
pub use shelf::{Shelf, ShelfErr};
pub use sizes::{MOST_HOST_BYTES, bytes_of};
pub use stamped::stamps;
pub use stamping::stamp_of;

/// A list of attachments.
pub type Attachments = ext_text::ListOf<Attachment>;

/// A list of files of a manifest.
pub type Items = ext_text::ListOf<Item>;

/// A list of manifests.
pub type Manifests = ext_text::ListOf<Manifest>;

/// A list of past trees.
pub type Pasts = ext_text::ListOf<Past>;
