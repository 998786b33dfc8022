//! The lines of the index of a generation: what each is, its reader, and its printer.
//!
//! A line of an index is a word and what follows it, or the line of an entry, which beside a file's stamp holds its home
//! ([`Homed`]). Each reader is exact: it gives what a line says, or that no such line says anything. Lines are printed to
//! an [`Out`], which keeps the bytes or counts them. The crate that reads and writes whole indexes stands on this one.
#![tactic(auto)]

mod homed;
mod line;
mod out;
mod printing;
mod text_number;

pub use homed::{Homed, kept_entry};
pub use line::{
    MOST_COUNT, after_word, host_of, item_of, manifest_of, name_after, number_after, path_after,
    text_of_header,
};
pub use out::{Counted, Out, Printed};
pub use printing::{
    put_attachment, put_entry, put_hierarchy, put_host, put_item, put_line, put_manifest,
    put_number, put_path, put_worded,
};
pub use text_number::TextNumber;
