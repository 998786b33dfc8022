// The order of the texts of paths, and what a text begins with, by the bytes alone.
ghost use Rattle.std.specs.Prelude.{◌≡◌, [], IsTrue, MatchOption, ◌≤◌, length, drop, false, true};
ghost use Rattle.ext_text.specs.PathText.{goes_on, is_border, rank, text_after, text_cmp, text_prefix};

use std::cmp::Ordering;

// The order of two texts in which `/` stands below every other byte.
pub(crate) fn cmp_text(a: &[u8], b: &[u8]) -> Ordering
    ensures { result ≡ text_cmp a.now b.now }
{
    let mut x = a;
    let mut y = b;
    'strides: loop {
        match (x.split_first_chunk::<8>(), y.split_first_chunk::<8>()) {
            (Some((eight, more)), Some((other, others))) => {
                if eight != other {
                    return cmp_each(x, y);
                }
                x = more;
                y = others;
            }
            _ => return cmp_each(x, y),
        }
    }
}

// The same, byte by byte.
fn cmp_each(a: &[u8], b: &[u8]) -> Ordering
    ensures { result ≡ text_cmp a.now b.now }
{
    let mut x = a;
    let mut y = b;
    'bytes: loop {
        match x {
            [] => return cmp_empty(y),
            [first, more @ ..] => match y {
                [] => return Ordering::Greater,
                [other, others @ ..] => match rank(*first).cmp(&rank(*other)) {
                    Ordering::Less => return Ordering::Less,
                    Ordering::Greater => return Ordering::Greater,
                    Ordering::Equal => {
                        x = more;
                        y = others;
                    }
                },
            },
        }
    }
}

// The order of the empty text and another.
fn cmp_empty(text: &[u8]) -> Ordering
    ensures { result ≡ text_cmp [] text.now }
{
    if text.is_empty() {
        Ordering::Equal
    } else {
        Ordering::Less
    }
}

// Where a byte stands among others: `/` is the first.
fn rank(byte: u8) -> u8
    ensures { result ≡ rank byte }
{
    if byte == b'/' { 0 } else { byte }
}

// Whether a text is a path's text, or that of a path below it.
pub(crate) fn begins_with(text: &[u8], prefix: &[u8]) -> bool
    ensures { result ≡ text_prefix prefix.now text.now }
{
    prefix.is_empty() || goes_on(text, prefix)
}

// Whether a text begins with another, and a name ends there.
fn goes_on(text: &[u8], prefix: &[u8]) -> bool
    ensures same { result ≡ goes_on prefix.now text.now }
    ensures within { IsTrue result → length prefix.now ≤ length text.now }
{
    text.starts_with(prefix) && is_border(&text[prefix.len()..])
}

// Whether a name ends here.
fn is_border(text: &[u8]) -> bool
    ensures { result ≡ is_border text.now }
{
    match text {
        [] => true,
        [first, ..] => *first == b'/',
    }
}

// What follows a path's text in the text of a path that begins with it; `None` exactly where it does not.
pub(crate) fn text_after<'a>(text: &'a [u8], prefix: &[u8]) -> Option<&'a [u8]>
    ensures { MatchOption result (text_prefix prefix.now text.now ≡ false) (λ rest. (text_prefix prefix.now text.now ≡ true)
        × (rest.now ≡ text_after prefix.now text.now)) }
{
    if prefix.is_empty() {
        return Some(text);
    }
    if !goes_on(text, prefix) {
        return None;
    }
    Some(after_slash(&text[prefix.len()..]))
}

// What follows the first byte, which is a slash; nothing at the end of a text.
fn after_slash(text: &[u8]) -> &[u8]
    ensures { result.now ≡ drop 1 text.now }
{
    match text {
        [] => text,
        [_slash, rest @ ..] => rest,
    }
}
