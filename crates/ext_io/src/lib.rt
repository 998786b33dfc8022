//! The streams of the outside: where bytes are read from, and where they are written to.
//!
//! A [`Source`] and a [`Sink`] may tell contracts what is left of them and what was written, and each counts its faults,
//! so that no status blames a device that did nothing wrong. [`read_to_end`] and [`write_all`] are the two loops that the
//! program is made of: they lose no byte, repeat none, and say of each refusal what was taken before it. [`MemorySource`]
//! and [`MemorySink`] serve tests, [`StdSource`] and [`StdSink`] the program. What other devices share with these stands
//! here too: the calls that fail, the count, the pieces that a call moves, and the calls of std that are tried again. The
//! crates that read commands and packs, and those that write replies, stand on this one.
#![tactic(auto)]

mod device;
mod failed;
mod memory_sink;
mod memory_source;
mod pieces;
mod retries;
mod sink;
mod source;
mod std_sink;
mod std_source;
mod whole;

pub use device::{Calls, is_listed, next_count, read_at};
pub use failed::Failed;
pub use memory_sink::MemorySink;
pub use memory_source::MemorySource;
pub use pieces::{PIECE, append, are_equal, room_for, zeros};
pub use retries::{TRIES, flush_again, read_again, write_again};
pub use sink::Sink;
pub use source::Source;
pub use std_sink::StdSink;
pub use std_source::StdSource;
pub use whole::{ReadErr, read_to_end, write_all};
