// Specifiers: what `%` and a letter stand for.
ghost use Rattle.std.specs.Prelude.{◌≡◌, ◌<◌, List, ℕ, length, IfOk};
ghost use Rattle.std.specs.Option.{option_copied, option_map};
ghost use Rattle.ext_transfer.specs.Fault.{GivesOrFaults};
ghost use Rattle.ext_transfer.specs.Specifiers.{expanded, expanded_value, release_value, specified};
ghost use Rattle.ext_transfer.specs.Meaning.{NextSpecified, letter_meaning};

use crate::err::{TransferErr, TransferFault, bad};
use ext_ini::Setting;
use ext_lines::split_at_byte;
use ext_release::Release;
use ext_text::{Arch, OutOfMemory, Text};
use std::alloc::Global;

/// What specifiers stand for: the release file of a host, if it has one, and its architecture.
#[derive(Clone, Copy)]
pub(crate) struct Specifiers<'h> {
    pub(crate) host: Option<&'h Release>,
    pub(crate) arch: Arch,
}

impl<'h> Specifiers<'h> {
    // What a letter after `%` stands for, if it is one.
    fn specified(&self, letter: u8) -> Option<&'h [u8]>
        ensures { option_copied result ≡ letter_meaning self.now letter }
    {
        match letter {
            b'A' => Some(release_value(self.host, "IMAGE_VERSION")),
            b'B' => Some(release_value(self.host, "BUILD_ID")),
            b'M' => Some(release_value(self.host, "IMAGE_ID")),
            b'o' => Some(release_value(self.host, "ID")),
            b'w' => Some(release_value(self.host, "VERSION_ID")),
            b'a' => Some(self.arch.name().as_bytes()),
            b'%' => Some(b"%"),
            _ => None,
        }
    }
}

// The value of a key of the release file; empty where it has none, or there is no file.
fn release_value<'h>(host: Option<&'h Release>, key: &str) -> &'h [u8]
    ensures { result.now ≡ release_value (option_copied host.entry) key.now }
{
    match host {
        None => b"",
        Some(release) => match release.value(key) {
            None => b"",
            Some(value) => value.as_bytes(),
        },
    }
}

// A text with each specifier replaced, or none where one has no meaning. What stands for a specifier is not looked at again.
fn expanded(
    alloc: Global,
    specifiers: &Specifiers,
    text: &[u8],
) -> Result<Option<Text>, OutOfMemory>
    ensures { IfOk result (λ made. made ≡ expanded (letter_meaning specifiers.now) text.now) }
{
    let mut made = Text::new(alloc);
    let mut rest = text;
    'specifiers: loop {
        match split_at_byte(rest, b'%') {
            None => {
                made.append(rest)?;
                return Ok(Some(made));
            }
            Some((literal, after)) => match next_specified(specifiers, after) {
                None => return Ok(None),
                Some((value, later)) => {
                    made.append(literal)?;
                    made.append(value)?;
                    rest = later;
                }
            },
        }
    }
}

// What the letter after a `%` stands for, and the text after it; none where it is no letter of a specifier or nothing follows.
fn next_specified<'h, 't>(
    specifiers: &Specifiers<'h>,
    after: &'t [u8],
) -> Option<(&'h [u8], &'t [u8])>
    ensures { NextSpecified (letter_meaning specifiers.now) after.now result }
{
    match after.split_first() {
        None => None,
        Some((letter, later)) => match specifiers.specified(*letter) {
            None => None,
            Some(value) => Some((value, later)),
        },
    }
}

// The value of a setting with its specifiers replaced.
pub(crate) fn expanded_value(
    alloc: Global,
    specifiers: &Specifiers,
    setting: &Setting,
) -> Result<Text, TransferErr>
    ensures { GivesOrFaults result (expanded_value (letter_meaning specifiers.now) setting.now) }
{
    match expanded(alloc, specifiers, setting.value.bytes())? {
        None => Err(bad(setting.line, TransferFault::Specifier)),
        Some(text) => Ok(text),
    }
}
