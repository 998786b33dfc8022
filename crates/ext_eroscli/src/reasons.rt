// Why a run ended as it did, for a person to read.
use ext_folder::Trouble;
use ext_lines::allocated;
use ext_mount::{ImageRefusal, ImageStatus};
use ext_reasons::{Ending, escaped, reason_of_broken, reason_of_trouble, word_at};
use ext_text::OutOfMemory;
use std::alloc::Global;

// What the words after STORE are.
const WORDS: &str =
    "[--mark=G] [--time=SECONDS], in this order, where G is the number of a mark, and SECONDS one from 0 to 9223372036854775807";

/// No word, or an option that isn't alone.
pub(crate) fn without_folder(alloc: Global) -> Result<Ending<ImageStatus>, OutOfMemory> {
    let reason = allocated(String::from_str(
        alloc,
        "it is called as hostext_erofs STORE [--mark=G] [--time=SECONDS], or with --help or --version alone",
    ))?;
    Ok(Ending::because(ImageStatus::Usage { place: 1 }, reason))
}

/// The words after STORE ask nothing, and this is the place of their first fault.
pub(crate) fn faulty_words(
    alloc: Global,
    words: &[String],
    place: u64,
) -> Result<Ending<ImageStatus>, OutOfMemory> {
    let reason = match word_at(words, place) {
        Some(word) => {
            let word = escaped(alloc, word)?;
            allocated(format!(in alloc; "the words are {WORDS}: not `{word}`"))?
        }
        None => allocated(format!(in alloc; "the words are {WORDS}: one is missing"))?,
    };
    Ok(Ending::because(ImageStatus::Usage { place }, reason))
}

/// The ending of a run with this status over the store folder at this path of the system, where this went wrong first on it.
pub(crate) fn ending_with(
    alloc: Global,
    status: ImageStatus,
    store: &str,
    of_store: Option<&Trouble>,
) -> Result<Ending<ImageStatus>, OutOfMemory> {
    let reason = match &status {
        ImageStatus::DiskFault => reason_of_trouble(alloc, of_store)?,
        ImageStatus::BadStore { line } => Some(reason_of_broken(alloc, store, *line)?),
        ImageStatus::Refused(refusal) => Some(remedy_of(alloc, refusal)?),
        _ => None,
    };
    Ok(Ending::with(status, reason))
}

// What was looked for where a run was refused, and what helps.
fn remedy_of(alloc: Global, refusal: &ImageRefusal) -> Result<String, OutOfMemory> {
    allocated(String::from_str(
        alloc,
        match refusal {
            ImageRefusal::NoStore => {
                "STORE has no `current`, so that it keeps no host: `hostext STORE DEPOT init ARCH SCOPE` makes one"
            }
            ImageRefusal::NoMark { .. } => {
                "the host has no such mark: `hostext STORE DEPOT history` lists those that it has"
            }
            ImageRefusal::LongLink { .. } => {
                "Linux makes a link whose target has 4096 bytes, and doesn't read it: remove it, or make its target shorter"
            }
        },
    ))
}
