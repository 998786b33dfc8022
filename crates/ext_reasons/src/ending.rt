use crate::devices::reason_of_trouble;
use crate::environment::has_value;
use ext_folder::Trouble;
use ext_text::OutOfMemory;
use std::alloc::Global;
use std::io::IsTerminal;
use std::rt::Env;

/// How a run ended, and why, for a person to read.
#[derive(Drop)]
pub struct Ending<S: Drop> {
    status: S,
    reason: Option<String>,
}

impl<S: Drop> Ending<S> {
    /// A status that speaks for itself.
    pub fn of(status: S) -> Ending<S> {
        Ending {
            status,
            reason: None,
        }
    }

    /// A status, and why it came.
    pub fn because(status: S, reason: String) -> Ending<S> {
        Ending {
            status,
            reason: Some(reason),
        }
    }

    /// A status, and why it came where that is known.
    pub fn with(status: S, reason: Option<String>) -> Ending<S> {
        Ending { status, reason }
    }

    /// The status.
    pub fn status(&self) -> &S {
        &self.status
    }

    /// Why it came, where that is to be told.
    pub fn reason(&self) -> Option<&str> {
        match &self.reason {
            Some(reason) => Some(reason.as_str()),
            None => None,
        }
    }

    /// Prints the reason on standard error, where that is a terminal or the environment asks for it, by `HOSTEXT_EXPLAIN=yes`. A
    /// fault in printing is ignored: the status tells as much.
    pub fn print_reason<R: Env + Eprint + AllocGlobal, T: IsTerminal>(&self, rt: &R, errors: &T) {
        if let Some(reason) = self.reason()
            && (errors.is_terminal() || has_value(rt, "HOSTEXT_EXPLAIN", "yes"))
        {
            let _ = eprintln!(rt; "hostext: {reason}");
        }
    }
}

/// The ending of a run with this status, where this went wrong before it began.
///
/// # Errors
/// `OutOfMemory` alone.
pub fn faulty<S: Drop>(
    alloc: Global,
    status: S,
    trouble: &Trouble,
) -> Result<Ending<S>, OutOfMemory> {
    let reason = reason_of_trouble(alloc, Some(trouble))?;
    Ok(Ending::with(status, reason))
}
