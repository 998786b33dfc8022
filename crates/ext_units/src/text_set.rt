// Texts in a set, so that many others can be looked for in it.
ghost use Rattle.std.specs.Prelude.{◌≡◌, ℕ, List, IfOk};
ghost use Rattle.ext_units.specs.TextSet.{is_one_of};

use ext_lines::OutOfMemory;
use ext_text::Text;
use std::alloc::Global;
use std::collections::BTreeSet;
use std::marker::Model;

// Borrowed texts, each once. Contracts see them as a list.
#[derive(Drop)]
pub struct TextSet<'a> {
    texts: BTreeSet<&'a [u8]>,
}

impl<'a> Model for TextSet<'a> {
    ghost use Rattle.std.specs.Prelude.{ℕ, List, map};

    ghost Value = { List (List ℕ) };

    ghost view = { λ s. map (λ text. text.now) s.texts.keys };
}

impl<'a> TextSet<'a> {
    // These texts.
    pub(crate) fn of(alloc: Global, texts: &'a [Text]) -> Result<TextSet<'a>, OutOfMemory>
        ensures { IfOk result (λ set. (text : List ℕ) → is_one_of set text ≡ is_one_of texts.now text) }
    {
        let mut set = BTreeSet::new(alloc);
        'texts: for text in texts {
            set.insert(text.bytes())?;
        }
        Ok(TextSet { texts: set })
    }

    // Whether the text is one of them.
    pub(crate) fn has(&self, text: &[u8]) -> bool
        ensures { result ≡ is_one_of self.now text.now }
    {
        self.texts.contains(text)
    }
}
