//! Patterns: the texts by which names of files are told to hold a version.
//!
//! A [`Pattern`] is text with wildcards in it, `@v` for a version and `@h` for a digest. [`read_pattern`] is exact: it gives
//! the pattern, or its first fault from the left. [`Pattern::matches`] takes a name apart by it, [`first_match`] by the first of
//! several that matches, and [`Pattern::fill`] makes a name from a version and a digest. Whoever chooses among the versions of a
//! resource stands on this.
#![tactic(auto)]

mod caught;
mod filling;
mod first;
mod following;
pub mod laws;
mod literal;
mod matching;
mod part;
mod pattern;
mod reading;
mod wildcard;

pub use caught::Caught;
pub use first::first_match;
pub use pattern::Pattern;
pub use reading::{PatternErr, read_pattern};
