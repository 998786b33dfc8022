//! What the programs share around a run: reasons why it ended as it did, for a person to read, and what the environment says of
//! reasons and locks.
//!
//! A reason stands on one line of standard error, so what comes from a path or an argument is escaped in it. Each program adds what
//! it says of its own words. A reason changes no status, and nothing is promised of its words.
#![tactic(auto)]

mod devices;
mod ending;
mod environment;
mod escaping;
mod stores;
mod waiting_line;
mod words;

pub use devices::reason_of_trouble;
pub use ending::{Ending, faulty};
pub use environment::{has_value, lock};
pub use escaping::escaped;
pub use stores::{reason_of_broken, reason_of_damage};
pub use waiting_line::WaitingLine;
pub use words::word_at;
