// The words of a command that are left to read.
ghost use Rattle.std.specs.Prelude.{◌≡◌, ◌≤◌, ◌^◌, ◌∷◌, [], length, MatchOption};
ghost use Rattle.ext_lines.specs.Words.{words_of};

use ext_lines::next_word;
use ext_text::Text;
use std::marker::Model;

// Words that are left: of those that were given, and of those that stand in a text between blanks. They are read one by one, and
// none is copied: a line may have millions of them. Contracts see them as the list of the words.
#[derive(Drop)]
pub(crate) struct WordsLeft<'a> {
    given: &'a [Text],
    text: &'a [u8],
}

impl<'a> Model for WordsLeft<'a> {
    ghost use Rattle.std.specs.Prelude.{ℕ, List, ◌++◌, ◌≤◌, ◌^◌, length};
    ghost use Rattle.ext_lines.specs.Words.{words_of};

    ghost Value = { List (List ℕ) };

    ghost view = { λ w. w.given.now ++ words_of w.text.now };

    ghost invariant = { λ w. length (w.given.now ++ words_of w.text.now) ≤ 2 ^ 63 };
}

impl<'a> WordsLeft<'a> {
    // Words that were given.
    pub(crate) fn of_words(given: &'a [Text]) -> WordsLeft<'a>
        ensures { result ≡ given.now }
    {
        WordsLeft { given, text: b"" }
    }

    // The words of a text.
    pub(crate) fn of_text(text: &'a [u8]) -> WordsLeft<'a>
        ensures { result ≡ words_of text.now }
    {
        WordsLeft { given: &[], text }
    }

    // The same words.
    pub(crate) fn copy(&self) -> WordsLeft<'a>
        ensures { result ≡ self.now }
    {
        WordsLeft {
            given: self.given,
            text: self.text,
        }
    }

    // There are no more of them than can be counted.
    pub(crate) fn are_countable(&self)
        ensures { length self.now ≤ 2 ^ 63 }
    {
        // The invariant is known where a field is used.
        let _given = &self.given;
    }

    // The first word, and the words after it.
    pub(crate) fn next(&self) -> Option<(&'a [u8], WordsLeft<'a>)>
        ensures { MatchOption result (self.now ≡ []) (λ found. self.now ≡ found.0.now ∷ found.1) }
    {
        match self.given {
            [] => next_of_text(self.text),
            [word, given @ ..] => Some((
                word.bytes(),
                WordsLeft {
                    given,
                    text: self.text,
                },
            )),
        }
    }
}

// The first word of a text, and the words after it.
fn next_of_text<'a>(text: &'a [u8]) -> Option<(&'a [u8], WordsLeft<'a>)>
    ensures { MatchOption result (words_of text.now ≡ []) (λ found. words_of text.now ≡ found.0.now ∷ found.1) }
{
    match next_word(text) {
        None => None,
        Some((word, more)) => Some((word, WordsLeft::of_text(more))),
    }
}
