// The words of a run.
ghost use Rattle.std.specs.Prelude.{◌≡◌, ◌≢◌, ◌≤◌, ◌++◌, ℕ, List, codes, decimal, slice_get, MatchOption, Some};
ghost use Rattle.std.specs.Option.{option_copied};
ghost use Rattle.ext_mount.specs.Asked.{IsGenerationNumber, IsImageTime, mark_option, time_option};
ghost use Rattle.ext_mount.specs.Reading.{FindsNumber, ReadsImageAsk, told};

use crate::asked::ImageAsk;
use ext_lines::read_decimal;
use ext_text::Words;
use thiserror::Error;

// The highest number of a generation.
const MOST_GENERATION: u64 = 4_294_967_295;

// The latest time, in seconds since 1970.
const MOST_TIME: u64 = 9_223_372_036_854_775_807;

/// The words ask nothing.
#[derive(Clone, Copy, Debug, PartialEq, Eq, Error)]
#[error("nothing is asked from word {place} on")]
pub struct UsageErr {
    /// The place of the first fault, counted from 1: the least place such that no words that ask something begin with those up
    /// to it.
    pub place: u64,
}

/// What the words `[--mark=G] [--time=SECONDS]` ask: G is the number of a mark's generation, 1 to 4294967295, SECONDS a time, 0
/// to 9223372036854775807, both decimal and without leading zeros. The grammar is this project's own.
///
/// # Errors
/// Exactly where they ask nothing, with the place of the first fault.
pub fn read_words(words: &Words) -> Result<ImageAsk, UsageErr>
    ensures { ReadsImageAsk words.now result }
{
    let mark = read_mark(word_at(words, 0));
    let time = read_time(word_at(words, told(&mark)));
    let count = told(&mark) + told(&time);
    if words.len() > count {
        return Err(UsageErr {
            place: count as u64 + 1,
        });
    }
    Ok(ImageAsk { mark, time })
}

// The word at an index, counted from 0.
fn word_at(words: &Words, index: usize) -> Option<&[u8]>
    ensures { option_copied result ≡ slice_get words.now index }
{
    match words.get(index) {
        None => None,
        Some(word) => Some(word.bytes()),
    }
}

// How many words tell a number: one where it is there.
fn told<T>(number: &Option<T>) -> usize
    ensures { result ≡ told number.now }
{
    match number {
        None => 0,
        Some(_) => 1,
    }
}

// The number of a mark's generation, where the word tells one.
fn read_mark(word: Option<&[u8]>) -> Option<u32>
    ensures { FindsNumber mark_option IsGenerationNumber (option_copied word.entry) result }
{
    match read_option(word, b"--mark=", MOST_GENERATION) {
        None => None,
        Some(0) => None,
        Some(generation) => Some(generation as u32),
    }
}

// The time, where the word tells one.
fn read_time(word: Option<&[u8]>) -> Option<u64>
    ensures { FindsNumber time_option IsImageTime (option_copied word.entry) result }
{
    read_option(word, b"--time=", MOST_TIME)
}

// The number of an option, where the word tells it and the number is at most so much.
fn read_option(word: Option<&[u8]>, option: &[u8], most: u64) -> Option<u64>
    ensures { FindsNumber option.now (λ n. n ≤ most) (option_copied word.entry) result }
{
    match word {
        None => None,
        Some(word) => read_after(word, option, most),
    }
}

// The number that stands after these bytes.
fn read_after(word: &[u8], option: &[u8], most: u64) -> Option<u64>
    ensures { FindsNumber option.now (λ n. n ≤ most) (Some word.now) result }
{
    match after(word, option) {
        None => None,
        Some(digits) => read_decimal(digits, most),
    }
}

// What follows this beginning of a word; `None` exactly where the word has another.
fn after<'a>(word: &'a [u8], beginning: &[u8]) -> Option<&'a [u8]>
    ensures { MatchOption result
        ((rest : List ℕ) → word.now ≢ beginning.now ++ rest)
        (λ rest. word.now ≡ beginning.now ++ rest.now) }
{
    word.strip_prefix(beginning)
}
