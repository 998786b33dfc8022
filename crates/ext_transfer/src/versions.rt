// The keys whose values are versions, and the settings of keys that are lists.
ghost use Rattle.std.specs.Prelude.{◌≡◌, ◌++◌, [], IfOk, OnOk};
ghost use Rattle.std.specs.List.{list_all};
ghost use Rattle.std.specs.Option.{option_copied};
ghost use Rattle.ext_lines.specs.Words.{words_of};
ghost use Rattle.ext_transfer.specs.Fault.{GivesOrFaults};
ghost use Rattle.ext_transfer.specs.Meaning.{letter_meaning};
ghost use Rattle.ext_transfer.specs.Versions.{expanded_setting, expanded_settings, is_version_text, min_at, min_version_set, protected_set, versions_in};

use crate::err::{TransferErr, TransferFault, bad};
use crate::specifiers::{Specifiers, expanded_value};
use ext_ini::{Setting, Settings};
use ext_lines::next_word;
use ext_text::{Lines, OutOfMemory, Text};
use ext_vers::is_version;
use std::alloc::Global;

// Whether a text is a version.
fn is_version_text(text: &[u8]) -> bool
    ensures { result ≡ is_version_text text.now }
{
    is_version(text)
}

// The version that a text at a line writes; the empty text writes none.
fn min_at(line: u64, text: Text) -> Result<Option<Text>, TransferErr>
    ensures { GivesOrFaults result (min_at line text) }
{
    if text.bytes().is_empty() {
        return Ok(None);
    }
    if is_version_text(text.bytes()) {
        Ok(Some(text))
    } else {
        Err(bad(line, TransferFault::MinVersion))
    }
}

// MinVersion= of [Transfer].
pub(crate) fn min_version(
    alloc: Global,
    specifiers: &Specifiers,
    setting: Option<&Setting>,
) -> Result<Option<Text>, TransferErr>
    ensures { GivesOrFaults result (min_version_set (letter_meaning specifiers.now) (option_copied setting.entry)) }
{
    match setting {
        None => Ok(None),
        Some(setting) => min_at(setting.line, expanded_value(alloc, specifiers, setting)?),
    }
}

// A setting with its specifiers replaced.
fn expanded_setting(
    alloc: Global,
    specifiers: &Specifiers,
    setting: &Setting,
) -> Result<Setting, TransferErr>
    ensures { GivesOrFaults result (expanded_setting (letter_meaning specifiers.now) setting.now) }
{
    let value = expanded_value(alloc, specifiers, setting)?;
    let line = setting.line;
    Ok(Setting { line, value })
}

// Settings with their specifiers replaced.
pub(crate) fn expanded_settings(
    alloc: Global,
    specifiers: &Specifiers,
    settings: &[Setting],
) -> Result<Settings, TransferErr>
    ensures { GivesOrFaults result (expanded_settings (letter_meaning specifiers.now) [] settings.now) }
{
    let mut made = Settings::new(alloc);
    let mut rest = settings;
    'settings: loop {
        match rest.split_first() {
            None => return Ok(made),
            Some((setting, after)) => {
                match expanded_setting(alloc, specifiers, setting) {
                    Err(refused) => return Err(refused),
                    Ok(setting) => made.push(setting)?,
                }
                rest = after;
            }
        }
    }
}

// Whether each word of a text is a version.
fn are_versions(text: &[u8]) -> bool
    ensures { result ≡ list_all is_version_text (words_of text.now) }
{
    let mut rest = text;
    'words: loop {
        match next_word(rest) {
            None => return true,
            Some((word, after)) => {
                if !is_version_text(word) {
                    return false;
                }
                rest = after;
            }
        }
    }
}

// Adds the words of a text.
pub(crate) fn append_words(alloc: Global, words: &mut Lines, text: &[u8]) -> Result<(), OutOfMemory>
    ensures { OnOk result (words.new ≡ words.old ++ words_of text.now) }
{
    let mut rest = text;
    'words: loop {
        match next_word(rest) {
            None => return Ok(()),
            Some((word, after)) => {
                words.push(Text::from_bytes(alloc, word)?)?;
                rest = after;
            }
        }
    }
}

// The versions that are the words of settings.
fn versions_in(alloc: Global, settings: &[Setting]) -> Result<Lines, TransferErr>
    ensures { GivesOrFaults result (versions_in [] settings.now) }
{
    let mut versions = Lines::new(alloc);
    let mut rest = settings;
    'settings: loop {
        match rest.split_first() {
            None => return Ok(versions),
            Some((setting, after)) => {
                if !are_versions(setting.value.bytes()) {
                    return Err(bad(setting.line, TransferFault::ProtectVersion));
                }
                append_words(alloc, &mut versions, setting.value.bytes())?;
                rest = after;
            }
        }
    }
}

// ProtectVersion= of [Transfer].
pub(crate) fn protected_versions(
    alloc: Global,
    specifiers: &Specifiers,
    settings: &[Setting],
) -> Result<Lines, TransferErr>
    ensures { GivesOrFaults result (protected_set (letter_meaning specifiers.now) settings.now) }
{
    let made = expanded_settings(alloc, specifiers, settings)?;
    versions_in(alloc, made.as_slice())
}
