//! The paths of the store on a disk: what is read, written and removed there.
//!
//! A host is kept in a folder, in numbered generations. This crate knows where each thing of it stands, and has the loops
//! over a disk and a depot: a file read whole, held files given and verified, left-overs removed, a file written from bytes
//! or copied from the depot, and compared with one. Each of them says what it means for a disk that tells: what stands
//! afterwards, what is synced, which paths no stop can have changed. The crate that carries generations through stops stands
//! on this one.
#![tactic(auto)]

mod beside;
mod comparing;
mod copying;
mod errors;
mod fault;
mod gen_shelf;
mod hashing;
mod held_files;
pub mod laws;
mod left_overs;
mod names;
mod paths;
mod pieces;
mod reading;
mod removal;
mod writing;

pub use comparing::{is_same_as_kept, is_same_as_text};
pub use copying::copy_from_depot;
pub use errors::{CleanErr, CompareErr, CopyErr, ReadErr};
pub use fault::StoreFault;
pub use gen_shelf::GenShelf;
pub use held_files::{file, verify};
pub use left_overs::{MOST_LEFT_OVERS, is_left_over, remove_below, remove_left_overs};
pub use names::{generation_of, read_current};
pub use paths::{
    FILES_OF_A_FOLDER, current_path, generation_path, home_folder, home_path, index_path,
    next_path, store_folder,
};
pub use pieces::{next_piece, piece};
pub use reading::{Found, read_file};
pub use writing::{make_folder, sync_folder, write_file};
