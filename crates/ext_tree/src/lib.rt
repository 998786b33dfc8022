//! Trees of entries, and their text.
//!
//! A [`Tree`] is a finite map from paths to entries in which each non-empty proper prefix of a path is a directory. A tree
//! text is read into its tree and a tree is printed as its one text. Bytes that are no text are refused at their first
//! faulty line. The lines of entries are read and printed for any content of a file ([`LineContent`]). The crates that
//! layer, search and change trees stand on this one.
#![tactic(auto)]

mod copy;
mod cut;
mod entry;
mod entry_line;
mod fields;
mod following;
mod graft;
mod insertion_point;
mod joining;
pub mod laws;
mod part;
mod reading;
mod slices;
mod stamp;
mod tree;
mod writing;

pub use copy::append_pairs;
pub use entry::{Entry, Held1};
pub use entry_line::{LineContent, append_fields, append_line, entry_of_line, fields_of, path_of};
pub use fields::{
    append_digest, append_number, append_stamp, split_digest, split_number, split_stamp,
};
pub use following::may_follow;
pub use joining::joined;
pub use reading::{TreeTextErr, read_tree, read_trees};
pub use slices::{after, cmp_child};
pub use stamp::Stamp;
pub use tree::{MOST_ENTRIES, Tree, TreeErr};
pub use writing::{write_entries_into, write_tree};

/// A list of trees whose files are known by their stamps.
pub type Trees = ext_text::ListOf<Tree<Stamp>>;
