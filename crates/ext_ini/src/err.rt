use ext_text::OutOfMemory;
use thiserror::Error;

/// Why bytes are no unit file.
#[derive(Clone, Copy, Debug, PartialEq, Eq, Error)]
pub enum IniErr {
    /// An allocation failed.
    #[error("out of memory")]
    OutOfMemory,
    /// A line is faulty.
    #[error("line {line} of the unit file is faulty: {why}")]
    BadIni {
        /// The first line that is, counted from 1. A line that goes on has the number of its first line.
        line: u64,
        /// What is wrong with it.
        why: IniFault,
    },
}

/// What is wrong with a line of a unit file.
#[derive(Clone, Copy, Debug, PartialEq, Eq, Error)]
pub enum IniFault {
    /// An assignment stands before the first section.
    #[error("no section has begun")]
    NoSection,
    /// A line is no section, no comment and not empty, and has no `=`.
    #[error("it has no `=`")]
    NoEquals,
    /// A line begins with `[`, and is not a name in brackets.
    #[error("it is no name in brackets")]
    BadSection,
    /// A line is no UTF-8, or holds a control byte other than a tab.
    #[error("it is no text")]
    NotText,
}

impl From<OutOfMemory> for IniErr {
    ghost use Rattle.std.specs.Prelude.{◌≡◌};
    ghost use Rattle.ext_ini.specs.declared.err.IniErr.TheVariants as errors;

    ghost from_gives = { λ _ e. e ≡ errors.OutOfMemory };

    fn from(_failed: OutOfMemory) -> IniErr {
        IniErr::OutOfMemory
    }
}
