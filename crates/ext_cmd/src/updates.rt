// The words after `sysupdate`. The first of them has the place 2.
ghost use Rattle.std.specs.Prelude.{◌≡◌, ◌≢◌, ◌∷◌, ◌<◌, ◌≤◌, ◌^◌, ◌↔◌, ℕ, List, MatchOption, IsTrue, codes};
ghost use Rattle.ext_transfer.specs.Component.{IsComponent};
ghost use Rattle.ext_vers.specs.Version.{IsVersion};
ghost use Rattle.ext_cmd.specs.Grammar.{HasNoMore, IsVersionWord, Maybe, TakesAsked, itself};
ghost use Rattle.ext_cmd.specs.Reading.{ReadsAfter, ReadsAfterUpdateWord, ReadsPart, ReadsWord, no_words};
ghost use Rattle.ext_cmd.specs.Words.{IsOptionalVersion, IsPlainComponent, IsUpdateAsk, component_word, update_words, version_words};
ghost use Rattle.ext_cmd.specs.declared.keyword.Keyword.TheVariants as keywords;
ghost use Rattle.ext_cmd.specs.declared.keyword.UpdateWord.TheVariants as asks;

use crate::arguments::no_more;
use crate::command::{Command, UpdateVerb};
use crate::keyword::UpdateWord;
use crate::words::CmdErr;
use crate::words_left::WordsLeft;
use ext_text::{NameErr, Text};
use ext_transfer::Component;
use ext_vers::{Version, is_version};
use std::alloc::Global;

// `sysupdate ..`.
pub(crate) fn read_sysupdate(alloc: Global, more: &WordsLeft<'_>) -> Result<Command, CmdErr>
    ensures { ReadsAfter keywords.Sysupdate more.now result }
{
    match more.next() {
        None => Err(CmdErr::Usage { place: 2 }),
        Some((word, more)) => match after_option(word) {
            None => read_of_none(alloc, word, &more),
            Some(name) => read_of_component(alloc, name, &more),
        },
    }
}

// The name that the option of a component gives; `None` exactly where the word isn't that option.
fn after_option(word: &[u8]) -> Option<&[u8]>
    ensures { MatchOption result
        ((name : List ℕ) → word.now ≢ component_word name)
        (λ name. word.now ≡ component_word name.now) }
{
    word.strip_prefix(b"--component=".as_slice())
}

// What is asked where no component is chosen.
fn read_of_none(alloc: Global, word: &[u8], more: &WordsLeft<'_>) -> Result<Command, CmdErr>
    requires { (name : List ℕ) → word.now ≢ component_word name }
    ensures { ReadsAfter keywords.Sysupdate (word.now ∷ more.now) result }
{
    if is_components(word) {
        no_more(more, 3)?;
        return Ok(Command::Components);
    }
    let verb = read_verb(alloc, word, more, 2)?;
    Ok(Command::Sysupdate {
        component: None,
        verb,
    })
}

// The word that asks which components there are.
fn is_components(word: &[u8]) -> bool
    ensures { IsTrue result ↔ (word.now ≡ codes "components") }
{
    matches!(word, b"components")
}

// What is asked of the component of this name.
fn read_of_component(alloc: Global, name: &[u8], more: &WordsLeft<'_>) -> Result<Command, CmdErr>
    ensures { ReadsAfter keywords.Sysupdate (component_word name.now ∷ more.now) result }
{
    let component = read_component(alloc, name, 2)?;
    let verb = read_asked(alloc, more, 3)?;
    Ok(Command::Sysupdate {
        component: Some(component),
        verb,
    })
}

// A component whose name isn't taken for an option.
fn read_component(alloc: Global, name: &[u8], place: u64) -> Result<Component, CmdErr>
    ensures { ReadsWord itself IsPlainComponent name.now place result }
{
    match name {
        [b'-', ..] => Err(CmdErr::Usage { place }),
        _ => read_any_component(alloc, name, place),
    }
}

// A component whose name may be taken for an option.
fn read_any_component(alloc: Global, name: &[u8], place: u64) -> Result<Component, CmdErr>
    ensures { ReadsWord itself IsComponent name.now place result }
{
    match Component::read(alloc, name) {
        Ok(component) => Ok(component),
        Err(NameErr::OutOfMemory) => Err(CmdErr::OutOfMemory),
        Err(NameErr::BadName) => Err(CmdErr::Usage { place }),
    }
}

// What is asked of updates.
fn read_asked(alloc: Global, words: &WordsLeft<'_>, first: u64) -> Result<UpdateVerb, CmdErr>
    requires { first < 2 ^ 32 }
    ensures { ReadsPart update_words IsUpdateAsk TakesAsked words.now first result }
{
    match words.next() {
        None => Err(CmdErr::Usage { place: first }),
        Some((word, more)) => read_verb(alloc, word, &more, first),
    }
}

// What is asked by a word and those after it.
fn read_verb(
    alloc: Global,
    word: &[u8],
    more: &WordsLeft<'_>,
    place: u64,
) -> Result<UpdateVerb, CmdErr>
    requires { place < 2 ^ 32 }
    ensures { ReadsPart update_words IsUpdateAsk TakesAsked (word.now ∷ more.now) place result }
{
    match UpdateWord::read(word) {
        None => Err(CmdErr::Usage { place }),
        Some(asked) => read_after(alloc, asked, more, place + 1),
    }
}

// What is asked by this word, with those after it.
fn read_after(
    alloc: Global,
    asked: UpdateWord,
    more: &WordsLeft<'_>,
    first: u64,
) -> Result<UpdateVerb, CmdErr>
    requires { first ≤ 2 ^ 32 }
    ensures { ReadsAfterUpdateWord asked more.now first result }
{
    match asked {
        UpdateWord::List => alone(UpdateVerb::List, more, first),
        UpdateWord::CheckNew => alone(UpdateVerb::CheckNew, more, first),
        UpdateWord::Update => read_update(alloc, more, first),
        UpdateWord::Vacuum => alone(UpdateVerb::Vacuum, more, first),
        UpdateWord::Features => alone(UpdateVerb::Features, more, first),
    }
}

// What is asked by a word that no other follows.
fn alone(verb: UpdateVerb, more: &WordsLeft<'_>, first: u64) -> Result<UpdateVerb, CmdErr>
    ensures { ReadsPart no_words (λ v. v ≡ verb) HasNoMore more.now first result }
{
    no_more(more, first)?;
    Ok(verb)
}

// `update [VERSION]`.
fn read_update(alloc: Global, more: &WordsLeft<'_>, first: u64) -> Result<UpdateVerb, CmdErr>
    requires { first ≤ 2 ^ 32 }
    ensures { ReadsAfterUpdateWord asks.Update more.now first result }
{
    let version = read_last_version(alloc, more, first)?;
    Ok(UpdateVerb::Update { version })
}

// The version that may stand last.
fn read_last_version(
    alloc: Global,
    words: &WordsLeft<'_>,
    first: u64,
) -> Result<Option<Version>, CmdErr>
    requires { first ≤ 2 ^ 32 }
    ensures { ReadsPart version_words IsOptionalVersion (Maybe IsVersionWord HasNoMore) words.now first result }
{
    match words.next() {
        None => Ok(None),
        Some((word, more)) => {
            let version = read_version(alloc, word, first)?;
            no_more(&more, first + 1)?;
            Ok(Some(version))
        }
    }
}

// A version.
fn read_version(alloc: Global, word: &[u8], place: u64) -> Result<Version, CmdErr>
    ensures { ReadsWord itself IsVersion word.now place result }
{
    if !is_version(word) {
        return Err(CmdErr::Usage { place });
    }
    let text = Text::from_bytes(alloc, word)?;
    Ok(Version::new(text))
}
