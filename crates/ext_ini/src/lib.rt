//! Unit files: sections, and the settings that stand in them, by the syntax of systemd.syntax(7).
//!
//! [`read_ini`] is exact: it gives the sections of a file as they stand there, or the line that is faulty and why. What an
//! [`Ini`] says of a key is its last setting, or all of them since the last empty one. Whoever reads transfer files asks
//! it for their keys.
#![tactic(auto)]

mod err;
mod ini;
pub mod laws;
mod line;
mod reading;
mod sections;
mod taking;
mod whole;

pub use err::{IniErr, IniFault};
pub use ini::{Ini, Settings};
pub use reading::read_ini;
pub use sections::{Assignment, Section, Setting};
