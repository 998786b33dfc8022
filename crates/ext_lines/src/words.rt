// The words between blanks.
ghost use Rattle.std.specs.Prelude.{◌≡◌, ◌<◌, [], ◌∷◌, length, MatchOption};
ghost use Rattle.std.specs.List.{slice_split};
ghost use Rattle.memchr.specs.Find.{IsFirstByte};
ghost use Rattle.ext_lines.specs.Blanks.{is_blank};
ghost use Rattle.ext_lines.specs.Words.{IsNextWord, has_word};

use crate::blanks::is_blank;

/// The first word of a text, and the text after it; `None` exactly where the text has no word.
pub fn next_word(text: &[u8]) -> Option<(&[u8], &[u8])>
    ensures { IsNextWord text.now result }
{
    let mut rest = text;
    'pieces: loop {
        match split_at_blank(rest) {
            None => return last_word(rest),
            Some((piece, after)) => {
                if !piece.is_empty() {
                    return Some((piece, after));
                }
                rest = after;
            }
        }
    }
}

/// Whether the word is one of the text's.
pub fn has_word(text: &[u8], word: &[u8]) -> bool
    ensures { result ≡ has_word word.now text.now }
{
    !word.is_empty()
        && text
            .split(|byte| is_blank(*byte))
            .any(|piece| piece == word)
}

// The word of a text without blanks, if it isn't empty.
fn last_word(text: &[u8]) -> Option<(&[u8], &[u8])>
    requires { slice_split is_blank text.now ≡ text.now ∷ [] }
    ensures { IsNextWord text.now result }
{
    if text.is_empty() {
        None
    } else {
        Some((text, &[]))
    }
}

// The text before the first blank, and the text after it.
fn split_at_blank(text: &[u8]) -> Option<(&[u8], &[u8])>
    ensures { MatchOption result
        (slice_split is_blank text.now ≡ text.now ∷ [])
        (λ parts. (slice_split is_blank text.now ≡ parts.0.now ∷ slice_split is_blank parts.1.now)
        × (length parts.1.now < length text.now)) }
{
    match index_of_blank(text) {
        None => None,
        Some(index) => Some((&text[..index], &text[index + 1..])),
    }
}

// The index of the first blank.
fn index_of_blank(text: &[u8]) -> Option<usize>
    ensures { IsFirstByte is_blank text.now result }
{
    text.iter().position(|byte| is_blank(*byte))
}
