// The tokens of a text, read one after another.
ghost use Rattle.std.specs.Prelude.{◌≡◌, ◌≤◌, length};
ghost use Rattle.std.specs.Char.{is_ascii_digit, is_ascii_alphabetic};
ghost use Rattle.ext_vers.specs.Token.{HasDigits, IsNext, bytes_after, is_end, is_separator, longest_prefix, token_of};
ghost use Rattle.ext_vers.specs.Version.{token_cmp, token_rank, tokens};

use crate::number::number_cmp;
use std::cmp::Ordering;

// What a text is read as; a run is borrowed from the text.
#[derive(Clone, Copy)]
pub(crate) enum Token<'a> {
    Tilde,
    End,
    Dash,
    Caret,
    Dot,
    Letters(&'a [u8]),
    Number(&'a [u8]),
}

impl Token<'_> {
    // Whether it is the end.
    pub(crate) fn is_end(&self) -> bool
        ensures { result ≡ is_end (token_of self.now) }
    {
        matches!(self, Token::End)
    }

    // Where tokens of its kind stand among the others.
    fn rank(&self) -> u8
        ensures { result ≡ token_rank (token_of self.now) }
    {
        match self {
            Token::Tilde => 0,
            Token::End => 1,
            Token::Dash => 2,
            Token::Caret => 3,
            Token::Dot => 4,
            Token::Letters(_) => 5,
            Token::Number(_) => 6,
        }
    }
}

// By rank, then numbers by value and letters byte by byte.
pub(crate) fn token_cmp(x: Token<'_>, y: Token<'_>) -> Ordering
    requires left { HasDigits (token_of x) }
    requires right { HasDigits (token_of y) }
    ensures { result ≡ token_cmp (token_of x.entry) (token_of y.entry) }
{
    match (x, y) {
        (Token::Number(a), Token::Number(b)) => number_cmp(a, b),
        (Token::Letters(a), Token::Letters(b)) => a.cmp(b),
        (x, y) => x.rank().cmp(&y.rank()),
    }
}

// Whether a byte is a digit.
fn is_digit(byte: u8) -> bool
    ensures { result ≡ is_ascii_digit byte }
{
    byte.is_ascii_digit()
}

// Whether a byte is a letter.
fn is_letter(byte: u8) -> bool
    ensures { result ≡ is_ascii_alphabetic byte }
{
    byte.is_ascii_alphabetic()
}

// Whether a byte only separates.
fn is_separator(byte: u8) -> bool
    ensures { result ≡ is_separator byte }
{
    !is_digit(byte) && !is_letter(byte) && !matches!(byte, b'~' | b'-' | b'^' | b'.')
}

// The text from its first byte on that does not only separate.
fn after_separators(text: &[u8]) -> &[u8]
    ensures { result.now ≡ bytes_after is_separator text.now }
{
    let mut rest = text;
    while let [first, after @ ..] = rest
        && is_separator(*first)
    {
        rest = after;
    }
    rest
}

// How many digits the text begins with.
#[tactic(auto, using(crate::proofs::TokenLemmas::prefix_ends))]
fn digits_len(text: &[u8]) -> usize
    ensures prefix { result ≡ length (longest_prefix is_ascii_digit text.now) }
    ensures within { result ≤ length text.now }
{
    for (index, byte) in text.iter().enumerate() {
        if !is_digit(*byte) {
            return index;
        }
    }
    text.len()
}

// How many letters the text begins with.
#[tactic(auto, using(crate::proofs::TokenLemmas::prefix_ends))]
fn letters_len(text: &[u8]) -> usize
    ensures prefix { result ≡ length (longest_prefix is_ascii_alphabetic text.now) }
    ensures within { result ≤ length text.now }
{
    for (index, byte) in text.iter().enumerate() {
        if !is_letter(*byte) {
            return index;
        }
    }
    text.len()
}

// The first token of a text, and the rest of the text.
pub(crate) fn next_token(text: &[u8]) -> (Token<'_>, &[u8])
    ensures { IsNext text.now (token_of result.0) result.1.now }
{
    let start = after_separators(text);
    let [first, rest @ ..] = start else {
        return (Token::End, start);
    };
    match first {
        b'~' => (Token::Tilde, rest),
        b'-' => (Token::Dash, rest),
        b'^' => (Token::Caret, rest),
        b'.' => (Token::Dot, rest),
        _ if is_digit(*first) => {
            let (digits, rest) = start.split_at(digits_len(start));
            (Token::Number(digits), rest)
        }
        _ => {
            let (letters, rest) = start.split_at(letters_len(start));
            (Token::Letters(letters), rest)
        }
    }
}
