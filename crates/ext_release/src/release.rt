ghost use Rattle.std.specs.Prelude.{◌≡◌, ◌++◌, ℕ, List, [], IfOk, OnOk, None, Some, if◌then◌else◌};
ghost use Rattle.std.specs.Option.{option_copied, unwrap_or};
ghost use Rattle.std.specs.FinMap as map;
ghost use Rattle.std.specs.Str.{bytes_eq};
ghost use Rattle.std.specs.String.{string_bytes};
ghost use Rattle.ext_lines.specs.Words.{has_word, words_of};
ghost use Rattle.ext_release.specs.Line.{Sets};
ghost use Rattle.ext_text.specs.TextMap.{text_map};
ghost use Rattle.ext_release.specs.Release.{assigned, leaves};

use ext_lines::{has_word, next_word};
use ext_text::{Lines, OutOfMemory, Text};
use std::alloc::Global;
use std::collections::BTreeMap;
use std::marker::Model;

/// What a release file assigns. Contracts see it as the map from each key to its value, both as their bytes. A key
/// whose last value is empty is not in it.
#[derive(Drop)]
pub struct Release {
    alloc: Global,
    values: BTreeMap<String, String>,
}

impl Model for Release {
    ghost use Rattle.std.specs.Prelude.{ℕ, List};
    ghost use Rattle.std.specs.Coded.{coded_list, coded_ℕ};
    ghost use Rattle.std.specs.FinMap as map;
    ghost use Rattle.ext_lines.specs.ByteOrder.{bytes_cmp};
    ghost use Rattle.std.specs.String.{string_bytes};
    ghost use Rattle.ext_text.specs.TextMap.{text_map};

    ghost Value = { map.FinMap bytes_cmp (List ℕ) };

    ghost coded = { map.code (coded_list coded_ℕ) (coded_list coded_ℕ) };

    ghost view = { λ r. text_map string_bytes r.values.entries };
}

impl Release {
    // Nothing is assigned.
    pub(crate) fn new(alloc: Global) -> Release
        ensures { (key : List ℕ) → map.get result key ≡ None }
    {
        Release {
            alloc,
            values: BTreeMap::new(alloc),
        }
    }

    /// The value of a key, as its last assignment gives it; `None` exactly where the key has none or an empty one.
    pub fn value(&self, key: &str) -> Option<&str>
        ensures { option_copied result ≡ map.get self.now key.now }
    {
        match self.values.get(key) {
            Some(text) => Some(text.as_str()),
            None => None,
        }
    }

    /// The words of a key's value: the longest runs without a space or a tab. A key that has no value has none.
    ///
    /// # Errors
    /// `OutOfMemory` alone.
    pub fn words(&self, key: &str) -> Result<Lines, OutOfMemory>
        ensures { IfOk result (λ words. words ≡ words_of (unwrap_or (map.get self.now key.now) [])) }
    {
        let mut words = Lines::new(self.alloc);
        if let Some(text) = self.value(key) {
            append_words(self.alloc, &mut words, text.as_bytes())?;
        }
        Ok(words)
    }

    /// Whether a word is one of the words of a key's value.
    pub fn has_word(&self, key: &str, word: &str) -> bool
        ensures { result ≡ has_word word.now (unwrap_or (map.get self.now key.now) []) }
    {
        match self.value(key) {
            Some(text) => has_word(text.as_bytes(), word.as_bytes()),
            None => false,
        }
    }

    // The allocator that its texts are made with.
    pub(crate) fn allocator(&self) -> Global {
        self.alloc
    }

    // Sets a key to a value; to an empty one, the key has none.
    pub(crate) fn set(&mut self, key: &str, value: String) -> Result<(), OutOfMemory>
        ensures { OnOk result ((q : List ℕ) → map.get self.new q ≡ leaves (assigned (Sets key.now (string_bytes value))
            q) (map.get self.old q)) }
    {
        if value.as_str().is_empty() {
            unset(&mut self.values, key);
            return Ok(());
        }
        put(self.alloc, &mut self.values, key, value)
    }
}

// Adds the words of a text at the end.
fn append_words(alloc: Global, words: &mut Lines, text: &[u8]) -> Result<(), OutOfMemory>
    ensures { OnOk result (words.new ≡ words.old ++ words_of text.now) }
{
    let mut rest = text;
    'words: loop {
        match next_word(rest) {
            None => return Ok(()),
            Some((word, after)) => {
                words.push(Text::from_bytes(alloc, word)?)?;
                rest = after;
            }
        }
    }
}

// Puts a value at a key. A key that is there already is not copied.
fn put(
    alloc: Global,
    values: &mut BTreeMap<String, String>,
    key: &str,
    value: String,
) -> Result<(), OutOfMemory>
    ensures { OnOk result ((q : List ℕ) → map.get (text_map string_bytes values.new.entries) q
        ≡ (if bytes_eq key.now q then Some (string_bytes value) else map.get (text_map string_bytes values.old.entries) q)) }
{
    match values.get_mut(key) {
        Some(held) => {
            *held = value;
            Ok(())
        }
        None => {
            let key = String::from_str(alloc, key)?;
            let _ = values.insert(key, value)?;
            Ok(())
        }
    }
}

// Takes a key out.
fn unset(values: &mut BTreeMap<String, String>, key: &str)
    ensures { (q : List ℕ) → map.get (text_map string_bytes values.new.entries) q ≡ (if bytes_eq key.now q then None else map.get
        (text_map string_bytes values.old.entries) q) }
{
    let _ = values.remove(key);
}
