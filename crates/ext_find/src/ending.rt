// The endings of names, and the stems before them.
ghost use Rattle.std.specs.Prelude.{◌≡◌, ◌≤◌, ◌-◌, length, take};
ghost use Rattle.ext_find.specs.Ending.{ending_len, ending_of, is_hidden, stem_of};

// The ending of a name, which says what its entry is to lead to.
#[derive(Clone, Copy, PartialEq, Eq)]
pub enum Ending {
    // None of the others: an image in a directory.
    Plain,
    // `.raw`: an image in a file.
    DotRaw,
    // `.v`: a directory with versions of an image.
    DotV,
    // `.raw.v`: a directory with versions of an image in a file.
    DotRawV,
}

// The longest ending that the name has.
pub(crate) fn ending_of(name: &[u8]) -> Ending
    ensures { result ≡ ending_of name.now }
{
    if name.ends_with(b".raw.v") {
        Ending::DotRawV
    } else if name.ends_with(b".raw") {
        Ending::DotRaw
    } else if name.ends_with(b".v") {
        Ending::DotV
    } else {
        Ending::Plain
    }
}

// The name without its ending.
pub(crate) fn stem_of(name: &[u8]) -> &[u8]
    ensures { result.now ≡ stem_of name.now }
{
    without_last(name, ending_len(ending_of(name)))
}

// How many bytes an ending has.
fn ending_len(ending: Ending) -> usize
    ensures { result ≡ ending_len ending }
{
    match ending {
        Ending::Plain => 0,
        Ending::DotRaw => 4,
        Ending::DotV => 2,
        Ending::DotRawV => 6,
    }
}

// The text without so many of its last bytes.
fn without_last(text: &[u8], count: usize) -> &[u8]
    ensures { result.now ≡ take (length text.now - count) text.now }
{
    &text[..text.len().saturating_sub(count)]
}

/// Whether a name begins with a dot, and so is not looked at.
pub fn is_hidden(name: &[u8]) -> bool
    ensures { result ≡ is_hidden name.now }
{
    match name {
        [] => false,
        [first, ..] => *first == b'.',
    }
}
