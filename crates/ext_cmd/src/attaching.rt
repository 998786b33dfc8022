// The words after `attach` and `reattach`. The first of them has the place 3.
ghost use Rattle.std.specs.Prelude.{◌≡◌, ◌∷◌, ◌<◌, ◌≤◌, ◌^◌, ◌+◌, [], length, false};
ghost use Rattle.ext_cmd.specs.Grammar.{TakesAttached};
ghost use Rattle.ext_cmd.specs.Portable.{AreAttachWords, AreOptions, attach_words};
ghost use Rattle.ext_cmd.specs.PortReading.{ReadsAfterImage, ReadsAttached, ReadsNextWord, is_dashed};
ghost use Rattle.ext_cmd.specs.Reading.{ReadsPart};

use crate::arguments::read_plain_name;
use crate::attach_options::{copies, copy_option, read_joining};
use crate::images::read_image;
use crate::portable::{AttachOption, AttachOptions, AttachRest, AttachWord, AttachWords};
use crate::words::CmdErr;
use crate::words_left::WordsLeft;
use std::alloc::Global;

// An image with options and prefixes.
pub(crate) fn read_attach_words(alloc: Global, words: &WordsLeft<'_>) -> Result<AttachWords, CmdErr>
    ensures { ReadsPart attach_words AreAttachWords (TakesAttached []) words.now 3 result }
{
    words.are_countable();
    let mut before = AttachOptions::new(alloc);
    let mut rest = words.copy();
    let mut place = 3;
    'words: loop {
        match rest.next() {
            None => return Err(CmdErr::Usage { place }),
            Some((word, more)) => {
                if !is_dashed(word) {
                    return read_from_image(alloc, before, word, &more, place);
                }
                let option = read_joining(alloc, before.as_slice(), word, place)?;
                before.push(option)?;
                rest = more;
                place += 1;
            }
        }
    }
}

// Whether the word is an option or nothing.
fn is_dashed(word: &[u8]) -> bool
    ensures { result ≡ is_dashed word.now }
{
    match word {
        [] => false,
        [byte, ..] => *byte == b'-',
    }
}

// The word of an image, and those after it, after these options.
fn read_from_image(
    alloc: Global,
    before: AttachOptions,
    word: &[u8],
    more: &WordsLeft<'_>,
    place: u64,
) -> Result<AttachWords, CmdErr>
    requires options { AreOptions before }
    requires plain { is_dashed word.now ≡ false }
    requires few { place + length more.now + 1 < 2 ^ 64 }
    ensures { ReadsAttached before (word.now ∷ more.now) place result }
{
    let image = read_image(alloc, word, place)?;
    let after = read_after_image(alloc, before.as_slice(), more, place + 1)?;
    Ok(AttachWords {
        before,
        image,
        after,
    })
}

// Prefixes and options, after an image and these options.
fn read_after_image(
    alloc: Global,
    before: &[AttachOption],
    words: &WordsLeft<'_>,
    first: u64,
) -> Result<AttachRest, CmdErr>
    requires options { AreOptions before.now }
    requires few { first + length words.now < 2 ^ 64 }
    ensures { ReadsAfterImage before.now words.now first result }
{
    // The options stand before the image and after it: to look for one that clashes, all of them are needed in one list.
    let mut options = copies(alloc, before)?;
    let mut after = AttachRest::new(alloc);
    let mut rest = words.copy();
    let mut place = first;
    'words: loop {
        match rest.next() {
            None => return Ok(after),
            Some((word, more)) => {
                let next = read_word(alloc, &mut options, word, place)?;
                after.push(next)?;
                rest = more;
                place += 1;
            }
        }
    }
}

// A prefix or an option, after these options, which it joins.
fn read_word(
    alloc: Global,
    options: &mut AttachOptions,
    word: &[u8],
    place: u64,
) -> Result<AttachWord, CmdErr>
    ensures { ReadsNextWord options.old options.new word.now place result }
{
    if is_dashed(word) {
        let option = read_joining(alloc, options.as_slice(), word, place)?;
        let copy = copy_option(&option)?;
        options.push(copy)?;
        Ok(AttachWord::Option(option))
    } else {
        let name = read_plain_name(alloc, word, place)?;
        Ok(AttachWord::Prefix(name))
    }
}
