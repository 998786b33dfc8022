// The lists of hierarchies of `init`. The first has the place 4.
ghost use Rattle.std.specs.Prelude.{◌≡◌, []};
ghost use Rattle.ext_lines.specs.Split.{Lacks};
ghost use Rattle.ext_cmd.specs.Grammar.{TakesChosen};
ghost use Rattle.ext_cmd.specs.Plain.{IsPlainName};
ghost use Rattle.ext_cmd.specs.Reading.{MayFollow, PushesName, ReadsOthers, ReadsPart, ReadsWord, are_apart, may_follow};
ghost use Rattle.ext_cmd.specs.Words.{AreChosen, IsHierarchyList, chosen_words, hierarchies_word, slashed};

use crate::arguments::{no_more, read_any_name};
use crate::command::Chosen;
use crate::words::CmdErr;
use crate::words_left::WordsLeft;
use ext_host::{MOST_HIERARCHIES, default_hierarchies};
use ext_lines::split_at_byte;
use ext_text::{Extension, Name, Names};
use std::alloc::Global;

// The lists that are given, none, one or two.
pub(crate) fn read_chosen(alloc: Global, words: &WordsLeft<'_>) -> Result<Chosen, CmdErr>
    ensures { ReadsPart chosen_words AreChosen TakesChosen words.now 4 result }
{
    match words.next() {
        None => Ok(Chosen::Default),
        Some((word, more)) => {
            let sysext = read_list(alloc, word, 4)?;
            read_others(alloc, sysext, &more)
        }
    }
}

// The list of configuration extensions, after that of system extensions.
fn read_others(alloc: Global, sysext: Names, more: &WordsLeft<'_>) -> Result<Chosen, CmdErr>
    requires { IsHierarchyList sysext }
    ensures { ReadsOthers sysext more.now result }
{
    match more.next() {
        None => sysext_alone(alloc, sysext),
        Some((word, more)) => {
            let confext = read_list(alloc, word, 5)?;
            if !are_apart(sysext.as_slice(), confext.as_slice()) {
                return Err(CmdErr::Usage { place: 5 });
            }
            no_more(&more, 6)?;
            Ok(Chosen::Both { sysext, confext })
        }
    }
}

// One list alone, where no name of it is a default of the other class.
fn sysext_alone(alloc: Global, sysext: Names) -> Result<Chosen, CmdErr>
    requires { IsHierarchyList sysext }
    ensures { ReadsOthers sysext [] result }
{
    let confext = default_hierarchies(alloc, Extension::Confext)?;
    if !are_apart(sysext.as_slice(), confext.as_slice()) {
        return Err(CmdErr::Usage { place: 5 });
    }
    Ok(Chosen::Sysext(sysext))
}

// The names of a list: each stands after a `/`, and a `:` between each two.
fn read_list(alloc: Global, word: &[u8], place: u64) -> Result<Names, CmdErr>
    ensures { ReadsWord hierarchies_word IsHierarchyList word.now place result }
{
    let mut names = Names::new(alloc);
    let mut rest = word;
    'names: loop {
        match split_at_byte(rest, b':') {
            Some((part, after)) => {
                push_name(alloc, &mut names, part, place)?;
                rest = after;
            }
            None => {
                push_name(alloc, &mut names, rest, place)?;
                return Ok(names);
            }
        }
    }
}

// Adds the name of the next part of a list.
fn push_name(alloc: Global, names: &mut Names, part: &[u8], place: u64) -> Result<(), CmdErr>
    requires { Lacks 58 part.now }
    ensures { PushesName names.old names.new part.now place result }
{
    let name = read_next(alloc, names.as_slice(), part, place)?;
    names.push(name)?;
    Ok(())
}

// The name of the next part of a list, after these.
fn read_next(alloc: Global, before: &[Name], part: &[u8], place: u64) -> Result<Name, CmdErr>
    requires { Lacks 58 part.now }
    ensures { ReadsWord slashed (MayFollow before.now) part.now place result }
{
    let name = read_name(alloc, part, place)?;
    if may_follow(before, &name) {
        Ok(name)
    } else {
        Err(CmdErr::Usage { place })
    }
}

// There is room for one name more, and it is none of these.
fn may_follow(before: &[Name], name: &Name) -> bool
    ensures { result ≡ may_follow before.now name.now }
{
    before.len() < MOST_HIERARCHIES && !before.contains(name)
}

// A name after a `/`.
fn read_name(alloc: Global, part: &[u8], place: u64) -> Result<Name, CmdErr>
    ensures { ReadsWord slashed IsPlainName part.now place result }
{
    match part {
        [b'/', b'-', ..] => Err(CmdErr::Usage { place }),
        [b'/', text @ ..] => read_any_name(alloc, text, place),
        _ => Err(CmdErr::Usage { place }),
    }
}

// No name is one of the others.
fn are_apart(names: &[Name], others: &[Name]) -> bool
    ensures { result ≡ are_apart names.now others.now }
{
    names.iter().all(|name| !others.contains(name))
}
