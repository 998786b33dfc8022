use ext_folder::{FolderLock, Hold};
use std::env;
use std::fs::{File, Files};
use std::rt::Env;

/// Whether a variable of the environment has this value.
pub fn has_value<R: Env + AllocGlobal>(rt: &R, variable: &str, value: &str) -> bool {
    match env::var(rt, variable) {
        Ok(found) => found.as_str() == value,
        Err(_none) => false,
    }
}

/// The lock on a folder; none where the environment asks for none, by `HOSTEXT_LOCK=no`.
pub fn lock<R: Env + AllocGlobal + Files<File = File>>(
    rt: &R,
    folder: &str,
    hold: Hold,
) -> FolderLock {
    if has_value(rt, "HOSTEXT_LOCK", "no") {
        FolderLock::unwanted()
    } else {
        FolderLock::of(rt, folder, hold)
    }
}
