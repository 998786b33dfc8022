// The prefixes of units.
ghost use Rattle.std.specs.Prelude.{◌≡◌, not, IfOk};
ghost use Rattle.std.specs.List.{find};
ghost use Rattle.std.specs.Option.{option_copied};
ghost use Rattle.ext_units.specs.Prefixes.{first_forbidden, prefixes_of};
ghost use Rattle.ext_units.specs.TextSet.{is_one_of};

use crate::image_name::{first_part, last_name};
use crate::text_set::TextSet;
use ext_release::Release;
use ext_text::{ListOf, Name, Names, OutOfMemory, Path, Text};
use std::alloc::Global;

/// Prefixes of units, which need be no names: the first part of an image's name may be empty.
pub type Prefixes = ListOf<Text>;

/// The key by which an image lists the prefixes that it allows.
const PREFIXES_KEY: &str = "PORTABLE_PREFIXES";

/// The prefixes that count: those given, or where none is given the last name of the image's place up to its first `_`, or whole
/// where it has none. After portablectl(1).
///
/// # Errors
/// `OutOfMemory` alone.
pub fn prefixes_of(alloc: Global, given: &Names, place: &Path) -> Result<Prefixes, OutOfMemory>
    ensures { IfOk result (λ prefixes. prefixes ≡ prefixes_of given.now place.now) }
{
    if given.is_empty() {
        let mut prefixes = Prefixes::new(alloc);
        prefixes.push(Text::from_bytes(alloc, first_part(last_name(place)))?)?;
        return Ok(prefixes);
    }
    texts_of(alloc, given.as_slice())
}

// The names as texts.
fn texts_of(alloc: Global, names: &[Name]) -> Result<Prefixes, OutOfMemory>
    ensures { IfOk result (λ texts. texts ≡ names.now) }
{
    let mut texts = Vec::with_capacity(alloc, names.len())?;
    'names: for name in names {
        texts.push(Text::from_bytes(alloc, name.bytes())?)?;
    }
    Ok(Prefixes::from_vec(texts))
}

/// The first of the prefixes that an image of this release does not allow; `None` exactly where it allows all. An image allows the
/// words of its `PORTABLE_PREFIXES=`, and without it each prefix. After os-release(5).
///
/// # Errors
/// `OutOfMemory` alone.
pub fn first_forbidden(
    alloc: Global,
    release: &Release,
    prefixes: &Prefixes,
) -> Result<Option<Text>, OutOfMemory>
    ensures { IfOk result (λ prefix. prefix ≡ first_forbidden release.now prefixes.now) }
{
    match release.value(PREFIXES_KEY) {
        None => Ok(None),
        Some(_value) => {
            let words = release.words(PREFIXES_KEY)?;
            first_other(alloc, words.as_slice(), prefixes.as_slice())
        }
    }
}

// The first of the texts that is none of the words.
fn first_other(alloc: Global, words: &[Text], texts: &[Text]) -> Result<Option<Text>, OutOfMemory>
    ensures { IfOk result (λ other. other ≡ find (λ text. not (is_one_of words.now text)) texts.now) }
{
    let set = TextSet::of(alloc, words)?;
    match first_outside(&set, texts) {
        None => Ok(None),
        Some(text) => Ok(Some(text.copy()?)),
    }
}

// The first of the texts that is not in the set.
fn first_outside<'a>(set: &TextSet, texts: &'a [Text]) -> Option<&'a Text>
    ensures { option_copied result ≡ find (λ text. not (is_one_of set.now text)) texts.now }
{
    texts.iter().find(|text| !set.has(text.bytes()))
}
