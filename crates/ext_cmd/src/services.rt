// The words after `portable`. The first of them has the place 2.
ghost use Rattle.std.specs.Prelude.{◌≡◌, ◌+◌, ◌<◌, ◌^◌, length};
ghost use Rattle.std.specs.List.{AllByRecursion};
ghost use Rattle.ext_cmd.specs.Grammar.{Chooses, Each, HasNoMore, IsPlainWord, TakesPortWord, Then, itself};
ghost use Rattle.ext_cmd.specs.Keyword.{port_word_text};
ghost use Rattle.ext_cmd.specs.Plain.{IsPlainName};
ghost use Rattle.ext_cmd.specs.Portable.{IsPortCommand, port_words};
ghost use Rattle.ext_cmd.specs.PortReading.{ReadsAfterPortWord, name_words, themselves};
ghost use Rattle.ext_cmd.specs.Reading.{ReadsAfter, ReadsPart};
ghost use Rattle.ext_cmd.specs.declared.keyword.Keyword.TheVariants as keywords;
ghost use Rattle.ext_cmd.specs.declared.keyword.PortWord.TheVariants as ports;

use crate::arguments::{no_more, read_plain_name};
use crate::attaching::read_attach_words;
use crate::command::Command;
use crate::images::read_image;
use crate::keyword::PortWord;
use crate::portable::PortCommand;
use crate::words::CmdErr;
use crate::words_left::WordsLeft;
use ext_text::{Name, Names};
use std::alloc::Global;

// `portable ..`.
pub(crate) fn read_portable(alloc: Global, more: &WordsLeft<'_>) -> Result<Command, CmdErr>
    ensures { ReadsAfter keywords.Portable more.now result }
{
    Ok(Command::Portable(read_port(alloc, more)?))
}

// What is done with portable services.
fn read_port(alloc: Global, words: &WordsLeft<'_>) -> Result<PortCommand, CmdErr>
    ensures { ReadsPart port_words IsPortCommand (Chooses port_word_text TakesPortWord) words.now 2 result }
{
    match words.next() {
        None => Err(CmdErr::Usage { place: 2 }),
        Some((word, more)) => match PortWord::read(word) {
            None => Err(CmdErr::Usage { place: 2 }),
            Some(port) => read_after(alloc, port, &more),
        },
    }
}

// What is done by this word, with those after it.
fn read_after(alloc: Global, word: PortWord, more: &WordsLeft<'_>) -> Result<PortCommand, CmdErr>
    ensures { ReadsAfterPortWord word more.now result }
{
    match word {
        PortWord::List => read_list(more),
        PortWord::Inspect => read_inspect(alloc, more),
        PortWord::IsAttached => read_is_attached(alloc, more),
        PortWord::Attach => read_attach(alloc, more),
        PortWord::Detach => read_detach(alloc, more),
        PortWord::Reattach => read_reattach(alloc, more),
    }
}

// `list`.
fn read_list(more: &WordsLeft<'_>) -> Result<PortCommand, CmdErr>
    ensures { ReadsAfterPortWord ports.List more.now result }
{
    no_more(more, 3)?;
    Ok(PortCommand::List)
}

// `inspect IMAGE [PREFIX ..]`.
fn read_inspect(alloc: Global, more: &WordsLeft<'_>) -> Result<PortCommand, CmdErr>
    ensures { ReadsAfterPortWord ports.Inspect more.now result }
{
    match more.next() {
        None => Err(CmdErr::Usage { place: 3 }),
        Some((word, more)) => {
            let image = read_image(alloc, word, 3)?;
            let prefixes = read_prefixes(alloc, &more)?;
            Ok(PortCommand::Inspect { image, prefixes })
        }
    }
}

// Prefixes, after an image.
fn read_prefixes(alloc: Global, words: &WordsLeft<'_>) -> Result<Names, CmdErr>
    ensures { ReadsPart themselves (AllByRecursion IsPlainName) (Each IsPlainWord) words.now 4 result }
{
    words.are_countable();
    let mut names = Names::new(alloc);
    let mut rest = words.copy();
    let mut place = 4;
    'words: loop {
        match rest.next() {
            None => return Ok(names),
            Some((word, more)) => {
                let name = read_plain_name(alloc, word, place)?;
                names.push(name)?;
                rest = more;
                place += 1;
            }
        }
    }
}

// `is-attached NAME`.
fn read_is_attached(alloc: Global, more: &WordsLeft<'_>) -> Result<PortCommand, CmdErr>
    ensures { ReadsAfterPortWord ports.IsAttached more.now result }
{
    let name = read_last_name(alloc, more)?;
    Ok(PortCommand::IsAttached { name })
}

// `attach ..`.
fn read_attach(alloc: Global, more: &WordsLeft<'_>) -> Result<PortCommand, CmdErr>
    ensures { ReadsAfterPortWord ports.Attach more.now result }
{
    let asked = read_attach_words(alloc, more)?;
    Ok(PortCommand::Attach(asked))
}

// `detach NAME`.
fn read_detach(alloc: Global, more: &WordsLeft<'_>) -> Result<PortCommand, CmdErr>
    ensures { ReadsAfterPortWord ports.Detach more.now result }
{
    let name = read_last_name(alloc, more)?;
    Ok(PortCommand::Detach { name })
}

// `reattach ..`.
fn read_reattach(alloc: Global, more: &WordsLeft<'_>) -> Result<PortCommand, CmdErr>
    ensures { ReadsAfterPortWord ports.Reattach more.now result }
{
    let asked = read_attach_words(alloc, more)?;
    Ok(PortCommand::Reattach(asked))
}

// The name of an image, which stands last.
fn read_last_name(alloc: Global, words: &WordsLeft<'_>) -> Result<Name, CmdErr>
    ensures { ReadsPart name_words IsPlainName (Then IsPlainWord HasNoMore) words.now 3 result }
{
    match words.next() {
        None => Err(CmdErr::Usage { place: 3 }),
        Some((word, more)) => {
            let name = read_plain_name(alloc, word, 3)?;
            no_more(&more, 4)?;
            Ok(name)
        }
    }
}
