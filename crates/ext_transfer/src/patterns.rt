// The keys whose values are patterns.
ghost use Rattle.std.specs.Prelude.{◌≡◌, [], length};
ghost use Rattle.ext_lines.specs.Words.{words_of};
ghost use Rattle.ext_transfer.specs.Fault.{GivesOrFaults, or_fault};
ghost use Rattle.ext_transfer.specs.Meaning.{letter_meaning};
ghost use Rattle.ext_transfer.specs.Patterns.{next_pattern, patterns_and_value, patterns_and_words, patterns_in, patterns_of, target_patterns};

use crate::err::{TransferErr, TransferFault, bad};
use crate::specifiers::Specifiers;
use crate::transfer::Patterns;
use crate::versions::expanded_settings;
use ext_ini::Setting;
use ext_lines::next_word;
use ext_pattern::{Pattern, PatternErr, read_pattern};
use std::alloc::Global;

/// The most patterns of a key.
const MOST_PATTERNS: usize = 64;

// The pattern that a word at a line writes after so many others.
fn next_pattern(
    alloc: Global,
    count: usize,
    word: &[u8],
    line: u64,
    why: TransferFault,
) -> Result<Pattern, TransferErr>
    ensures { GivesOrFaults result (or_fault (next_pattern count word.now) line why) }
{
    if count >= MOST_PATTERNS {
        return Err(bad(line, why));
    }
    match read_pattern(alloc, word) {
        Ok(pattern) => Ok(pattern),
        Err(PatternErr::OutOfMemory) => Err(TransferErr::OutOfMemory),
        Err(_) => Err(bad(line, why)),
    }
}

// Patterns, and after them those that the words of a text at a line write.
fn patterns_and_words(
    alloc: Global,
    before: Patterns,
    text: &[u8],
    line: u64,
    why: TransferFault,
) -> Result<Patterns, TransferErr>
    ensures { GivesOrFaults result (or_fault (patterns_and_words before (words_of text.now)) line why) }
{
    let mut patterns = before;
    let mut rest = text;
    'words: loop {
        match next_word(rest) {
            None => return Ok(patterns),
            Some((word, after)) => {
                match next_pattern(alloc, patterns.len(), word, line, why) {
                    Err(refused) => return Err(refused),
                    Ok(pattern) => patterns.push(pattern)?,
                }
                rest = after;
            }
        }
    }
}

// Patterns, and after them those of a setting, which has one at least.
fn patterns_and_value(
    alloc: Global,
    before: Patterns,
    setting: &Setting,
    why: TransferFault,
) -> Result<Patterns, TransferErr>
    ensures { GivesOrFaults result (or_fault (patterns_and_value before setting.now.value) setting.now.line why) }
{
    let value = setting.value.bytes();
    if next_word(value).is_none() {
        return Err(bad(setting.line, why));
    }
    patterns_and_words(alloc, before, value, setting.line, why)
}

// The patterns that settings write.
fn patterns_in(
    alloc: Global,
    settings: &[Setting],
    why: TransferFault,
) -> Result<Patterns, TransferErr>
    ensures { GivesOrFaults result (patterns_in why [] settings.now) }
{
    let mut patterns = Patterns::new(alloc);
    let mut rest = settings;
    'settings: loop {
        match rest.split_first() {
            None => return Ok(patterns),
            Some((setting, after)) => {
                match patterns_and_value(alloc, patterns, setting, why) {
                    Err(refused) => return Err(refused),
                    Ok(more) => patterns = more,
                }
                rest = after;
            }
        }
    }
}

// The patterns that settings write, of which there is one at least.
pub(crate) fn patterns_of(
    alloc: Global,
    specifiers: &Specifiers,
    settings: &[Setting],
    why: TransferFault,
) -> Result<Patterns, TransferErr>
    ensures { GivesOrFaults result (patterns_of (letter_meaning specifiers.now) why settings.now) }
{
    if settings.is_empty() {
        return Err(bad(0, why));
    }
    let made = expanded_settings(alloc, specifiers, settings)?;
    patterns_in(alloc, made.as_slice(), why)
}

// The patterns of a target: where none are set, those of the source, which are sound by then.
pub(crate) fn target_patterns(
    alloc: Global,
    specifiers: &Specifiers,
    of_source: &[Setting],
    settings: &[Setting],
) -> Result<Patterns, TransferErr>
    ensures { GivesOrFaults result (target_patterns (letter_meaning specifiers.now) of_source.now settings.now) }
{
    if settings.is_empty() {
        patterns_of(alloc, specifiers, of_source, TransferFault::SourcePattern)
    } else {
        patterns_of(alloc, specifiers, settings, TransferFault::TargetPattern)
    }
}
