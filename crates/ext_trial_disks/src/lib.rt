//! The words of cases that look at a disk and a depot in memory.
//!
//! They stand below the commands: what is put on a disk and what it shows, its calls, a depot's answers, and how a command ended.
#![tactic(auto)]

mod depot_words;
mod disk_calls;
mod looking;
mod outcome;
mod placing;
mod spots;

pub use depot_words::read_text;
pub use disk_calls::call_text;
pub use looking::{calls_at, calls_text, file_text};
pub use outcome::{Outcome, append_bad_store, append_field};
pub use placing::{below, cut, put_on};
pub use spots::{Spot, is_at_or_below, spots_on, whole_text};
