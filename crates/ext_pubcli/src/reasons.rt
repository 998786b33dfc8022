// Why a run ended as it did, for a person to read.
use ext_folder::Trouble;
use ext_lines::allocated;
use ext_publish::{BadStore, PubStatus};
use ext_published::PubRefusal;
use ext_reasons::{
    Ending, escaped, reason_of_broken, reason_of_damage, reason_of_trouble, word_at,
};
use ext_text::OutOfMemory;
use std::alloc::Global;

// What the words after OUT are.
const WORDS: &str =
    "ABS RES NAME, where ABS begins with a slash, RES is a path without one, and NAME is a name that doesn't end in .tree";

/// Fewer words than STORE and OUT, and no option.
pub(crate) fn without_folders(alloc: Global) -> Result<Ending<PubStatus>, OutOfMemory> {
    let reason = allocated(String::from_str(
        alloc,
        "it is called as hostext_publish STORE OUT ABS RES NAME, or with --help or --version alone",
    ))?;
    Ok(Ending::because(PubStatus::Usage { place: 1 }, reason))
}

/// One of the folders is the other one or stands below it.
pub(crate) fn clashing_folders(alloc: Global) -> Result<Ending<PubStatus>, OutOfMemory> {
    let reason = allocated(String::from_str(
        alloc,
        "one of STORE and OUT is the other or stands below it: publishing would write into the store, or a web server serve it",
    ))?;
    Ok(Ending::because(PubStatus::Usage { place: 1 }, reason))
}

/// The words after OUT ask nothing, and this is the place of their first fault.
pub(crate) fn faulty_words(
    alloc: Global,
    words: &[String],
    place: u64,
) -> Result<Ending<PubStatus>, OutOfMemory> {
    let reason = match word_at(words, place) {
        Some(word) => {
            let word = escaped(alloc, word)?;
            allocated(format!(in alloc; "the words are {WORDS}: not `{word}`"))?
        }
        None => allocated(format!(in alloc; "the words are {WORDS}: one is missing"))?,
    };
    Ok(Ending::because(PubStatus::Usage { place }, reason))
}

/// The ending of a run with this status over the store folder at this path of the system, where this went wrong first on its two
/// folders.
pub(crate) fn ending_with(
    alloc: Global,
    status: PubStatus,
    store: &str,
    of_store: Option<&Trouble>,
    of_out: Option<&Trouble>,
) -> Result<Ending<PubStatus>, OutOfMemory> {
    let reason = match &status {
        PubStatus::DiskFault => reason_of_trouble(alloc, of_store)?,
        PubStatus::OutFault => reason_of_trouble(alloc, of_out)?,
        PubStatus::BadStore(BadStore::Broken { line }) => {
            Some(reason_of_broken(alloc, store, *line)?)
        }
        PubStatus::BadStore(BadStore::Damaged(damage)) => {
            Some(reason_of_damage(alloc, store, damage)?)
        }
        PubStatus::Unfinished => Some(allocated(String::from_str(
            alloc,
            "more was left over in OUT than one run removes: give the same words again",
        ))?),
        PubStatus::Refused(refusal) => Some(remedy_of(alloc, refusal)?),
        _ => None,
    };
    Ok(Ending::with(status, reason))
}

// What was looked for where a run was refused, and what helps.
fn remedy_of(alloc: Global, refusal: &PubRefusal) -> Result<String, OutOfMemory> {
    allocated(String::from_str(
        alloc,
        match refusal {
            PubRefusal::NoStore => {
                "STORE has no `current`, so that it keeps no host: `hostext STORE DEPOT init ARCH SCOPE` makes one"
            }
            PubRefusal::NoEntry { .. } =>
                "nothing stands there: `hostext STORE DEPOT tree` writes what does",
            PubRefusal::NotFile { .. } => {
                "what stands there is a link, and links are not followed here: publish what it leads to"
            }
            PubRefusal::LimitPath => {
                "a path has at most 64 names and 4096 bytes, with RES and NAME before it: choose shorter ones"
            }
            PubRefusal::OutKind { .. } => {
                "a file of OUT stands where a folder would be made, or a folder where SHA256SUMS would: take it away, or choose another RES"
            }
            PubRefusal::LimitText => {
                "a tree text and a manifest have at most 67108864 bytes: publish a directory below ABS, or take another RES for new versions"
            }
            PubRefusal::OutManifest { .. } => {
                "that line of RES/SHA256SUMS in OUT is no digest, two blanks and a name, or has another digest than a line above it: mend it, or choose another RES"
            }
            PubRefusal::Listed { .. } => {
                "what a manifest lists is never written again: a new version takes a new NAME"
            }
        },
    ))
}
