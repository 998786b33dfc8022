// What failed is told.
use ext_case::{Trouble, append_difference, append_shown};
use ext_text::Text;
use std::alloc::Global;
use std::{io, str};

/// How many cases passed, and how many failed.
#[derive(Clone, Copy, Default)]
pub(crate) struct Counts {
    pub(crate) passed: u64,
    pub(crate) failed: u64,
}

impl Counts {
    /// Counts one more.
    pub(crate) fn add(&mut self, passes: bool) {
        match passes {
            true => self.passed = self.passed.saturating_add(1),
            false => self.failed = self.failed.saturating_add(1),
        }
    }
}

/// A statement that failed: its line, and what was wanted and what came.
#[derive(Drop)]
pub(crate) struct Failure {
    pub(crate) line: u64,
    pub(crate) text: Text,
}

/// A failure that says this.
pub(crate) fn make_failure(alloc: Global, line: u64, why: &str) -> Result<Failure, Trouble> {
    Ok(Failure {
        line,
        text: Text::from_bytes(alloc, why.as_bytes())?,
    })
}

/// A failure where other bytes came than were wanted.
pub(crate) fn difference(
    alloc: Global,
    line: u64,
    wanted: &[u8],
    came: &[u8],
) -> Result<Failure, Trouble> {
    let mut text = Text::new(alloc);
    append_difference(&mut text, wanted, came)?;
    Ok(Failure { line, text })
}

/// Prints a failure of a case.
pub(crate) fn tell(rt: &HostRuntime, file: &str, name: &Text, failure: &Failure) -> io::Result<()> {
    let mut text = Text::new(rt.alloc());
    let _shown = append_shown(&mut text, name.bytes());
    let name = plain(&text);
    let line = failure.line;
    let why = plain(&failure.text);
    println!(rt; "{file}:{line}: {name}: {why}")
}

fn plain(text: &Text) -> &str {
    str::from_utf8(text.bytes()).unwrap_or("?")
}
