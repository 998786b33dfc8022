// The words of arguments. Each reader is told the place of the word, or of the first of the words, that it reads.
ghost use Rattle.std.specs.Prelude.{◌≡◌, ◌++◌, ◌+◌, ◌<◌, ◌^◌, codes, IfOk};
ghost use Rattle.ext_text.specs.Absolute.{absolute};
ghost use Rattle.ext_text.specs.Arch.{arch_name};
ghost use Rattle.ext_text.specs.Name.{IsName};
ghost use Rattle.ext_text.specs.Path.{IsPath, path_text};
ghost use Rattle.ext_text.specs.Scope.{scope_name};
ghost use Rattle.ext_cmd.specs.Grammar.{Any, HasNoMore, IsBelowRootWord, IsHostScope, IsPathWord, Then, itself};
ghost use Rattle.ext_cmd.specs.Plain.{IsBelowRoot, IsPlainName};
ghost use Rattle.ext_cmd.specs.Reading.{ReadsPart, ReadsWord, no_words, usage_of};
ghost use Rattle.ext_cmd.specs.Resource.{IsResource};
ghost use Rattle.ext_cmd.specs.Words.{path_words};

use crate::resource::Resource;
use crate::words::CmdErr;
use crate::words_left::WordsLeft;
use ext_text::{Arch, Name, NameErr, OutOfMemory, Path, PathErr, Scope};
use std::alloc::Global;

// No word is left.
pub(crate) fn no_more(words: &WordsLeft<'_>, place: u64) -> Result<(), CmdErr>
    ensures { ReadsPart no_words Any HasNoMore words.now place result }
{
    match words.next() {
        None => Ok(()),
        Some(_) => Err(CmdErr::Usage { place }),
    }
}

// An architecture.
pub(crate) fn read_arch(word: &[u8], place: u64) -> Result<Arch, CmdErr>
    ensures { ReadsWord arch_name Any word.now place result }
{
    match Arch::read(word) {
        Some(arch) => Ok(arch),
        None => Err(CmdErr::Usage { place }),
    }
}

// The scope of a host.
pub(crate) fn read_scope(word: &[u8], place: u64) -> Result<Scope, CmdErr>
    ensures { ReadsWord scope_name IsHostScope word.now place result }
{
    match Scope::read(word) {
        Some(Scope::System) => Ok(Scope::System),
        Some(Scope::Initrd) => Ok(Scope::Initrd),
        Some(Scope::Portable) | None => Err(CmdErr::Usage { place }),
    }
}

// A name that isn't taken for an option.
pub(crate) fn read_plain_name(alloc: Global, text: &[u8], place: u64) -> Result<Name, CmdErr>
    ensures { ReadsWord itself IsPlainName text.now place result }
{
    match text {
        [b'-', ..] => Err(CmdErr::Usage { place }),
        _ => read_any_name(alloc, text, place),
    }
}

// A name that may be taken for an option.
pub(crate) fn read_any_name(alloc: Global, text: &[u8], place: u64) -> Result<Name, CmdErr>
    ensures { ReadsWord itself IsName text.now place result }
{
    match Name::read(alloc, text) {
        Ok(name) => Ok(name),
        Err(NameErr::OutOfMemory) => Err(CmdErr::OutOfMemory),
        Err(NameErr::BadName) => Err(CmdErr::Usage { place }),
    }
}

// A path without a `/` before it.
fn read_names(alloc: Global, text: &[u8], place: u64) -> Result<Path, CmdErr>
    ensures { ReadsWord path_text IsPath text.now place result }
{
    match Path::read(alloc, text) {
        Ok(path) => Ok(path),
        Err(refusal) => Err(usage_of(refusal, place)),
    }
}

// Why the text of a path gives no command.
fn usage_of(refusal: PathErr, place: u64) -> CmdErr
    ensures { result ≡ usage_of refusal place }
{
    match refusal {
        PathErr::OutOfMemory => CmdErr::OutOfMemory,
        PathErr::TooLong => CmdErr::Usage { place },
        PathErr::TooDeep => CmdErr::Usage { place },
        PathErr::BadName => CmdErr::Usage { place },
    }
}

// A path of the host.
pub(crate) fn read_path(alloc: Global, word: &[u8], place: u64) -> Result<Path, CmdErr>
    ensures { ReadsWord absolute IsPath word.now place result }
{
    match word {
        [b'/', text @ ..] => read_names(alloc, text, place),
        _ => Err(CmdErr::Usage { place }),
    }
}

// A path of the host other than the root.
pub(crate) fn read_below_root(alloc: Global, word: &[u8], place: u64) -> Result<Path, CmdErr>
    ensures { ReadsWord absolute IsBelowRoot word.now place result }
{
    let path = read_path(alloc, word, place)?;
    if path.is_root() {
        return Err(CmdErr::Usage { place });
    }
    Ok(path)
}

// A tree in the depot.
pub(crate) fn read_resource(alloc: Global, word: &[u8], place: u64) -> Result<Resource, CmdErr>
    ensures { ReadsWord path_text IsResource word.now place result }
{
    if word.is_empty() {
        return Err(CmdErr::Usage { place });
    }
    let path = read_names(alloc, word, place)?;
    let name = name_of_tree(alloc, word)?;
    let text = read_names(alloc, name.as_slice(), place)?;
    Ok(Resource::new(path, text))
}

// The name of the tree text of a resource.
fn name_of_tree(alloc: Global, word: &[u8]) -> Result<Vec<u8>, OutOfMemory>
    ensures { IfOk result (λ name. name.items ≡ word.now ++ codes ".tree") }
{
    let mut name = Vec::from_slice(alloc, word)?;
    name.extend_from_slice(b".tree")?;
    Ok(name)
}

// A path of the host.
pub(crate) fn read_last_path(
    alloc: Global,
    words: &WordsLeft<'_>,
    first: u64,
) -> Result<Path, CmdErr>
    requires { first < 2 ^ 32 }
    ensures { ReadsPart path_words IsPath (Then IsPathWord HasNoMore) words.now first result }
{
    match words.next() {
        None => Err(CmdErr::Usage { place: first }),
        Some((word, more)) => {
            let path = read_path(alloc, word, first)?;
            no_more(&more, first + 1)?;
            Ok(path)
        }
    }
}

// A path of the host other than the root.
pub(crate) fn read_last_below_root(
    alloc: Global,
    words: &WordsLeft<'_>,
    first: u64,
) -> Result<Path, CmdErr>
    requires { first < 2 ^ 32 }
    ensures { ReadsPart path_words IsBelowRoot (Then IsBelowRootWord HasNoMore) words.now first result }
{
    match words.next() {
        None => Err(CmdErr::Usage { place: first }),
        Some((word, more)) => {
            let path = read_below_root(alloc, word, first)?;
            no_more(&more, first + 1)?;
            Ok(path)
        }
    }
}
