//! Homes for the files of a coming host, and the files that the store lacks, written.
//!
//! A host is kept in a store by an index and the files that it lists. A file that the host before had stays where it is. A
//! file that a change brings, from a text that is here or out of the depot, is looked for among the stored files of its
//! stamp, which are read and compared. Only where none of them has its bytes is it written into the folder of the coming
//! generation. The crate that carries generations through stops stands on this one.
#![tactic(auto)]

mod comparing;
mod errors;
mod giving;
mod kept_files;
pub mod laws;
mod placing;
mod sought;
mod writing;

pub use errors::HomesErr;
pub use giving::{Placed, give_homes};
