//! Words of cases for the public calls that work on values: texts, trees, release files, versions, manifests, unit files,
//! patterns, transfer files, and of hosts what no command shows.
//!
//! A statement `name read a` of a case calls [`answer`] with the word `name` and the arguments `read` and `a`, and what
//! comes is the text that the call's result is written as: a value in the forms of the formats, or plain words for a
//! refusal. Each file has a table of words, and carries out a word by its number: ten times its row, and its place there.
#![tactic(auto)]

mod asked;
mod files;
mod hosts;
mod laws;
mod lines;
mod paths;
mod streams;
mod transfers;
mod trees;

use crate::asked::{Asked, number_of};
use ext_case::Trouble;
use ext_text::Text;
use std::alloc::Global;

/// What a word of a case writes; `None` where it is no word of this crate. Its first argument says what is asked, as `read`
/// in `name read a`. Errors: `Unreadable` where the arguments are no arguments of the word.
pub fn answer(alloc: Global, word: &str, arguments: &[Text]) -> Result<Option<Text>, Trouble> {
    let [what, rest @ ..] = arguments else {
        return Ok(None);
    };
    let (what, count) = (what.bytes(), rest.len());
    let asked = Asked { alloc, rest };
    let said = if let Some(number) = number_of(&lines::WORDS, word, what, count)? {
        lines::reply(asked, number)
    } else if let Some(number) = number_of(&paths::WORDS, word, what, count)? {
        paths::reply(asked, number)
    } else if let Some(number) = number_of(&files::WORDS, word, what, count)? {
        files::reply(asked, number)
    } else if let Some(number) = number_of(&trees::WORDS, word, what, count)? {
        trees::reply(asked, number)
    } else if let Some(number) = number_of(&transfers::WORDS, word, what, count)? {
        transfers::reply(asked, number)
    } else if let Some(number) = number_of(&hosts::WORDS, word, what, count)? {
        hosts::reply(asked, number)
    } else {
        return Ok(None);
    };
    match said {
        Ok(text) => Ok(Some(text)),
        Err(stop) => stop.text(alloc),
    }
}
