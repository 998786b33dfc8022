//! Reading the lines of the index of a generation.
//!
//! An index is read line by line: what was read so far says which line may stand next, and what is read then. So each line is
//! judged by those before it alone, and the first one that may not stand where it stands is the faulty one. Every rule of an
//! index is asked here but two: its length, and that what updates left is what the host has. The crate of indexes, which
//! stands on this one, asks these.
#![tactic(auto)]

mod attachment_lines;
mod entry_lines;
mod err;
mod following;
mod home_lists;
mod homes;
pub mod laws;
mod machine_lines;
mod manifest_lines;
mod merged_lines;
mod next;
mod past_lines;
mod reading;
mod rows;
mod said;
mod state;
mod step;
mod tree_lines;

pub use err::IndexErr;
pub use reading::read_lines;
pub use said::Said;
pub use tree_lines::is_in_class;
