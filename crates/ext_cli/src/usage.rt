// Why words are no command, for a person to read.
use crate::commands::{SYNOPSES, Synopsis};
use ext_lines::allocated;
use ext_reasons::{Ending, escaped, word_at};
use ext_text::OutOfMemory;
use ext_top::Status;
use std::alloc::Global;
use strsim::osa_distance;

// Where the help is.
const HELP_ELSEWHERE: &str = "the help is written by `hostext --help`, without STORE and DEPOT";

// How many edits may lead from a word to a command that may be meant.
const NEAR: usize = 2;

/// Fewer words than STORE, DEPOT and a command, and no option.
pub(crate) fn without_command(alloc: Global) -> Result<Ending<Status>, OutOfMemory> {
    let reason = allocated(String::from_str(
        alloc,
        "it is called as hostext STORE DEPOT COMMAND .., or with --help or --version alone",
    ))?;
    Ok(Ending::because(Status::Usage { place: 1 }, reason))
}

/// The help is asked for in another way than that in which it is had.
pub(crate) fn seeking_help(alloc: Global) -> Result<Ending<Status>, OutOfMemory> {
    let reason = allocated(String::from_str(alloc, HELP_ELSEWHERE))?;
    Ok(Ending::because(Status::Usage { place: 1 }, reason))
}

/// DEPOT is STORE or stands below it.
pub(crate) fn clashing_folders(alloc: Global) -> Result<Ending<Status>, OutOfMemory> {
    let reason = allocated(String::from_str(
        alloc,
        "DEPOT is STORE or stands below it, where cleaning would take away what is to be read",
    ))?;
    Ok(Ending::because(Status::Usage { place: 1 }, reason))
}

/// The words after DEPOT are no command, and this is the place of their first fault.
pub(crate) fn faulty_words(
    alloc: Global,
    words: &[String],
    place: u64,
) -> Result<Ending<Status>, OutOfMemory> {
    let reason = match words {
        [] => with_commands(alloc, "no command is given")?,
        [first, ..] => match synopsis_of(first.as_str()) {
            Some(synopsis) => faulty_after(alloc, synopsis, words, place)?,
            None if is_help(first.as_str()) => allocated(String::from_str(alloc, HELP_ELSEWHERE))?,
            None => unknown(alloc, first.as_str())?,
        },
    };
    Ok(Ending::because(Status::Usage { place }, reason))
}

fn is_help(word: &str) -> bool {
    word == "--help" || word == "-h" || word == "help"
}

fn synopsis_of(word: &str) -> Option<&'static Synopsis> {
    for synopsis in &SYNOPSES {
        if synopsis.word == word {
            return Some(synopsis);
        }
    }
    None
}

// A word that the command hasn't there, or one that is missing.
fn faulty_after(
    alloc: Global,
    synopsis: &Synopsis,
    words: &[String],
    place: u64,
) -> Result<String, OutOfMemory> {
    let expected = synopsis.words;
    match word_at(words, place) {
        Some(word) => {
            let shown = escaped(alloc, word)?;
            if ends_in_slash(word) {
                return allocated(format!(in alloc;
                    "`{shown}` ends in a slash, and no path here does: leave it off"
                ));
            }
            allocated(format!(in alloc; "the words are {expected}: not `{shown}`"))
        }
        None => allocated(format!(in alloc; "the words are {expected}: one is missing")),
    }
}

// Whether a word is a path with a slash at its end, which isn't the root.
fn ends_in_slash(word: &str) -> bool {
    word.len() > 1 && word.ends_with('/')
}

// A first word that no command has, with the commands that may be meant.
fn unknown(alloc: Global, word: &str) -> Result<String, OutOfMemory> {
    let near = near_commands(alloc, word)?;
    let word = escaped(alloc, word)?;
    if near.is_empty() {
        let fault = allocated(format!(in alloc; "`{word}` is no command"))?;
        return with_commands(alloc, fault.as_str());
    }
    allocated(format!(in alloc; "`{word}` is no command; is it to be {near}?"))
}

fn with_commands(alloc: Global, fault: &str) -> Result<String, OutOfMemory> {
    let mut text = allocated(format!(in alloc; "{fault}; the commands are "))?;
    let mut before = "";
    for synopsis in &SYNOPSES {
        allocated(text.push_str(before))?;
        allocated(text.push_str(synopsis.word))?;
        before = ", ";
    }
    Ok(text)
}

// The commands that differ from a word by few edits, or begin with it, with `or` between each two.
fn near_commands(alloc: Global, word: &str) -> Result<String, OutOfMemory> {
    let mut text = String::new(alloc);
    for synopsis in &SYNOPSES {
        if is_near(alloc, word, synopsis.word)? {
            if !text.is_empty() {
                allocated(text.push_str(" or "))?;
            }
            allocated(text.push_str(synopsis.word))?;
        }
    }
    Ok(text)
}

fn is_near(alloc: Global, word: &str, command: &str) -> Result<bool, OutOfMemory> {
    if word.is_empty() || word.len() > command.len() + NEAR {
        return Ok(false);
    }
    if command.starts_with(word) {
        return Ok(true);
    }
    let edits = allocated(osa_distance(alloc, word, command))?;
    Ok(edits <= NEAR && edits < command.len() / 2)
}
