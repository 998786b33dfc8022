// The words of a run.
ghost use Rattle.std.specs.Prelude.{◌≡◌, ◌++◌, codes, slice_get, IfOk, IfErr, Some};
ghost use Rattle.std.specs.Option.{option_copied};
ghost use Rattle.ext_text.specs.Absolute.{absolute};
ghost use Rattle.ext_text.specs.Name.{IsName};
ghost use Rattle.ext_text.specs.Path.{IsPath, path_text};
ghost use Rattle.ext_published.specs.Asked.{IsDepotFolder, IsResourceName};
ghost use Rattle.ext_published.specs.Names.{is_reserved_name, tree_text_name};
ghost use Rattle.ext_published.specs.Reading.{ReadsAsked, ReadsAt, RefusesAt, usage_of_path};

use crate::asked::Asked;
use ext_text::{Name, NameErr, OutOfMemory, Path, PathErr, Text, Words};
use std::alloc::Global;
use thiserror::Error;

/// Why words ask nothing.
#[derive(Clone, Copy, Debug, PartialEq, Eq, Error)]
pub enum AskErr {
    /// An allocation failed.
    #[error("out of memory")]
    OutOfMemory,
    /// The words ask nothing.
    #[error("nothing is asked from word {place} on")]
    Usage {
        /// The place of the first fault, counted from 1: the least place such that no words that ask something begin with
        /// those up to it. Where some begin with all of them, the place after the last.
        place: u64,
    },
}

impl From<OutOfMemory> for AskErr {
    ghost use Rattle.std.specs.Prelude.{◌≡◌};
    ghost use Rattle.ext_published.specs.declared.words.AskErr.TheVariants as errors;

    ghost from_gives = { λ _ e. e ≡ errors.OutOfMemory };

    fn from(_failed: OutOfMemory) -> AskErr {
        AskErr::OutOfMemory
    }
}

/// What the words `ABS RES NAME` ask: ABS is a path after a `/`, RES a path other than the root that stays one with `.tree`
/// after its last name, NAME a name that stays one with `.tree` after it, does not end in `.tree`, and is neither `SHA256SUMS` nor
/// `SHA256SUMS.next`. The grammar is this project's own.
///
/// # Errors
/// `Usage` exactly where they ask nothing, with the place of the first fault. `OutOfMemory` may come at any words.
pub fn read_words(alloc: Global, words: &Words) -> Result<Asked, AskErr>
    ensures { ReadsAsked words.now result }
{
    let path = read_path(alloc, word_at(words, 0), 1)?;
    let folder = read_folder(alloc, word_at(words, 1), 2)?;
    let (name, tree_text) = read_name(alloc, word_at(words, 2), 3)?;
    if words.len() > 3 {
        return Err(AskErr::Usage { place: 4 });
    }
    Ok(Asked::new(path, folder, name, tree_text))
}

// The word at an index, counted from 0.
fn word_at(words: &Words, index: usize) -> Option<&[u8]>
    ensures { option_copied result ≡ slice_get words.now index }
{
    match words.get(index) {
        None => None,
        Some(word) => Some(word.bytes()),
    }
}

// A path of the host.
fn read_path(alloc: Global, word: Option<&[u8]>, place: u64) -> Result<Path, AskErr>
    ensures { ReadsAt absolute IsPath (option_copied word.entry) place result }
{
    match word {
        Some([b'/', text @ ..]) => names_of_path(alloc, text, place),
        _ => Err(AskErr::Usage { place }),
    }
}

// The path of a text that stands after a `/`.
fn names_of_path(alloc: Global, text: &[u8], place: u64) -> Result<Path, AskErr>
    ensures { ReadsAt path_text IsPath (Some text.now) place result }
{
    match Path::read(alloc, text) {
        Ok(path) => Ok(path),
        Err(refusal) => Err(usage_of(refusal, place)),
    }
}

// Why the text of a path asks nothing.
fn usage_of(refusal: PathErr, place: u64) -> AskErr
    ensures { result ≡ usage_of_path refusal place }
{
    match refusal {
        PathErr::OutOfMemory => AskErr::OutOfMemory,
        PathErr::TooLong => AskErr::Usage { place },
        PathErr::TooDeep => AskErr::Usage { place },
        PathErr::BadName => AskErr::Usage { place },
    }
}

// The folder of a depot.
fn read_folder(alloc: Global, word: Option<&[u8]>, place: u64) -> Result<Path, AskErr>
    ensures { ReadsAt path_text IsDepotFolder (option_copied word.entry) place result }
{
    match word {
        None => Err(AskErr::Usage { place }),
        Some(text) => folder_of(alloc, text, place),
    }
}

// The folder of this text.
fn folder_of(alloc: Global, text: &[u8], place: u64) -> Result<Path, AskErr>
    ensures { ReadsAt path_text IsDepotFolder (Some text.now) place result }
{
    let path = names_of_path(alloc, text, place)?;
    if path.is_root() {
        return Err(AskErr::Usage { place });
    }
    let longer = with_tree(alloc, text)?;
    let _longer = names_of_path(alloc, longer.bytes(), place)?;
    Ok(path)
}

// The bytes with `.tree` after them.
fn with_tree(alloc: Global, bytes: &[u8]) -> Result<Text, OutOfMemory>
    ensures { IfOk result (λ text. text ≡ bytes.now ++ codes ".tree") }
{
    let mut text = Text::from_bytes(alloc, bytes)?;
    text.append(b".tree")?;
    Ok(text)
}

// The name of a resource, and that of its tree text.
fn read_name(alloc: Global, word: Option<&[u8]>, place: u64) -> Result<(Name, Name), AskErr>
    ensures ok { IfOk result (λ names. IsResourceName names.0 × (option_copied word.entry ≡ Some names.0)
        × (names.1 ≡ tree_text_name names.0)) }
    ensures err { IfErr result (λ e. RefusesAt (λ name. name) IsResourceName (option_copied word.entry) place e) }
{
    match word {
        None => Err(AskErr::Usage { place }),
        Some(bytes) => names_of(alloc, bytes, place),
    }
}

// The names of these bytes.
fn names_of(alloc: Global, bytes: &[u8], place: u64) -> Result<(Name, Name), AskErr>
    ensures ok { IfOk result (λ names. IsResourceName names.0 × (names.0 ≡ bytes.now) × (names.1 ≡ tree_text_name names.0)) }
    ensures err { IfErr result (λ e. RefusesAt (λ name. name) IsResourceName (Some bytes.now) place e) }
{
    if is_reserved_name(bytes) {
        return Err(AskErr::Usage { place });
    }
    let name = plain_name(alloc, bytes, place)?;
    let longer = with_tree(alloc, bytes)?;
    let tree_text = plain_name(alloc, longer.bytes(), place)?;
    Ok((name, tree_text))
}

// Whether bytes are a name of a tree text or of a manifest.
fn is_reserved_name(bytes: &[u8]) -> bool
    ensures { result ≡ is_reserved_name bytes.now }
{
    bytes.ends_with(b".tree")
        || bytes == b"SHA256SUMS".as_slice()
        || bytes == b"SHA256SUMS.next".as_slice()
}

// The name of these bytes.
fn plain_name(alloc: Global, bytes: &[u8], place: u64) -> Result<Name, AskErr>
    ensures { ReadsAt (λ name. name) IsName (Some bytes.now) place result }
{
    match Name::read(alloc, bytes) {
        Ok(name) => Ok(name),
        Err(NameErr::OutOfMemory) => Err(AskErr::OutOfMemory),
        Err(NameErr::BadName) => Err(AskErr::Usage { place }),
    }
}
