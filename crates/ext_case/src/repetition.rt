// A text that is repeated.
use crate::trouble::Trouble;
use ext_lines::append_decimal;

/// A repetition that is open: how often its text is to stand, and what stands in front of it and around it.
#[derive(Drop)]
pub(crate) struct Repetition {
    pub(crate) count: u64,
    pub(crate) around: Vec<u8>,
    pub(crate) marks: Vec<usize>,
}

/// Adds a text so many times. At each mark in it stands the number of the repetition, counted from 1,000,000 so that all
/// have as many digits.
pub(crate) fn append_repeated(
    into: &mut Vec<u8>,
    text: &Vec<u8>,
    marks: &Vec<usize>,
    count: u64,
) -> Result<(), Trouble> {
    for number in 0..count {
        append_numbered(into, text.as_slice(), marks.as_slice(), number)?;
    }
    Ok(())
}

// Adds a text once, with this number at each mark.
fn append_numbered(
    into: &mut Vec<u8>,
    text: &[u8],
    marks: &[usize],
    number: u64,
) -> Result<(), Trouble> {
    let mut from = 0;
    for mark in marks {
        append_part(into, text, from, *mark)?;
        append_decimal(into, number.saturating_add(1_000_000))?;
        from = *mark;
    }
    append_part(into, text, from, text.len())
}

// Adds the bytes between two places.
fn append_part(into: &mut Vec<u8>, text: &[u8], from: usize, to: usize) -> Result<(), Trouble> {
    if from <= to && to <= text.len() {
        into.extend_from_slice(&text[from..to])?;
    }
    Ok(())
}
