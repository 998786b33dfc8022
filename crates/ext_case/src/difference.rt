// What was wanted and what came are compared, and told.
use crate::trouble::Trouble;
use ext_text::Text;

// As many bytes of a text are shown at most.
const MOST_SHOWN: usize = 300;

/// Adds `wanted .. and came ..`, from the first line in which they differ on.
pub fn append_difference(text: &mut Text, wanted: &[u8], came: &[u8]) -> Result<(), Trouble> {
    let from = line_start(wanted, shared(wanted, came));
    if from > 0 {
        text.append(b"after as many lines as agree, ")?;
    }
    text.append(b"wanted ")?;
    append_rest(text, wanted, from)?;
    text.append(b" and came ")?;
    append_rest(text, came, from)
}

// How many bytes at the front agree.
fn shared(wanted: &[u8], came: &[u8]) -> usize {
    let mut count = 0usize;
    for (one, other) in wanted.iter().zip(came.iter()) {
        if *one != *other {
            return count;
        }
        count = count.saturating_add(1);
    }
    count
}

// Where the line begins that has this place.
fn line_start(bytes: &[u8], place: usize) -> usize {
    let mut start = 0;
    for (index, byte) in bytes.iter().enumerate() {
        if index < place && *byte == b'\n' {
            start = index.saturating_add(1);
        }
    }
    start
}

fn append_rest(text: &mut Text, bytes: &[u8], from: usize) -> Result<(), Trouble> {
    match bytes.get(from..) {
        Some(rest) if !rest.is_empty() => append_shown(text, rest),
        _ => {
            text.append(b"nothing")?;
            Ok(())
        }
    }
}

/// Adds bytes on one line, as a case would write them; of many bytes, the first.
pub fn append_shown(text: &mut Text, bytes: &[u8]) -> Result<(), Trouble> {
    for (index, byte) in bytes.iter().enumerate() {
        if index == MOST_SHOWN {
            text.append(b" ..")?;
            return Ok(());
        }
        append_byte(text, *byte)?;
    }
    Ok(())
}

fn append_byte(text: &mut Text, byte: u8) -> Result<(), Trouble> {
    match byte {
        b'\n' => text.append(b"\\n")?,
        b'\t' => text.append(b"\\t")?,
        b'\r' => text.append(b"\\r")?,
        b'\\' => text.append(b"\\\\")?,
        b' '..=b'~' => text.append(&[byte])?,
        _ => text.append(&[b'\\', b'x', hexadecimal(byte >> 4), hexadecimal(byte & 15)])?,
    }
    Ok(())
}

fn hexadecimal(value: u8) -> u8 {
    match value & 15 {
        low if low < 10 => b'0' + low,
        high => b'a' + (high - 10),
    }
}
