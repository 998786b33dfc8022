use crate::folder_err::FolderErr;
use ext_text::OutOfMemory;
use std::alloc::Global;

/// What went wrong on a real folder, for a person to read: the call, where, and why.
#[derive(Drop)]
pub struct Trouble {
    call: &'static str,
    location: String,
    reason: String,
}

impl Trouble {
    /// A call at a location that was not done.
    ///
    /// # Errors
    /// `OutOfMemory` alone.
    pub(crate) fn new(
        alloc: Global,
        call: &'static str,
        location: String,
        error: &FolderErr,
    ) -> Result<Trouble, OutOfMemory> {
        Ok(Trouble {
            call,
            location,
            reason: format!(in alloc; "{error}")?,
        })
    }

    /// The name of the call, as `sync`.
    pub fn call(&self) -> &'static str {
        self.call
    }

    /// The system's path of what it was made at, which begins as it was given. It may hold control bytes.
    pub fn location(&self) -> &str {
        self.location.as_str()
    }

    /// Why it was not done: the words of the system where it refused, without their number.
    pub fn reason(&self) -> &str {
        let reason = self.reason.as_str();
        match reason.split_once(" (os error ") {
            Some((words, _number)) => words,
            None => reason,
        }
    }
}
