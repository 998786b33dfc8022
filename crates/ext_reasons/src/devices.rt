use crate::escaping::escaped;
use ext_folder::Trouble;
use ext_lines::allocated;
use ext_text::OutOfMemory;
use std::alloc::Global;

/// What went wrong on a folder: the call, where, and why. None where nothing is known of it.
///
/// # Errors
/// `OutOfMemory` alone.
pub fn reason_of_trouble(
    alloc: Global,
    trouble: Option<&Trouble>,
) -> Result<Option<String>, OutOfMemory> {
    match trouble {
        Some(trouble) => {
            let (call, reason) = (trouble.call(), trouble.reason());
            let location = escaped(alloc, trouble.location())?;
            Ok(Some(allocated(format!(in alloc; "{call} {location}: {reason}"))?))
        }
        None => Ok(None),
    }
}
