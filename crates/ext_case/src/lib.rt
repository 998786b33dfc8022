//! Cases as text: a file of cases is read into cases, statements and words.
//!
//! A case is a name and statements, each with the lines that it should write. `tests/cases/README.md` shows the format.
//! [`read_cases`] reads a file. What the words of all cases share stands here too: [`Trouble`], arguments as names, paths,
//! digests and numbers, lines that a word writes, and the comparison of what was wanted with what came. The crates that
//! carry words out stand on this one. Each call that gives a [`Trouble`] gives `OutOfMemory` where memory is wanting.
#![tactic(auto)]

mod arguments;
mod case;
mod cutting;
mod difference;
mod reader;
mod repetition;
mod texts;
mod trouble;
mod undoing;
mod writing;

pub use arguments::{
    name, number, one, one_and_more, path, place_in, size, string, three, two, two_and_more,
};
pub use case::{Case, Cases, Fault, Statement};
pub use difference::{append_difference, append_shown};
pub use reader::read_cases;
pub use trouble::Trouble;
pub use writing::{
    append_line, append_number, append_str, line_of, number_line, number_text, written,
};
