// What a word writes.
use crate::trouble::Trouble;
use ext_lines::append_decimal;
use ext_text::Text;
use std::alloc::Global;

/// These bytes, and no newline.
pub fn written(alloc: Global, bytes: &[u8]) -> Result<Text, Trouble> {
    Ok(Text::from_bytes(alloc, bytes)?)
}

/// A line of this text.
pub fn line_of(alloc: Global, line: &str) -> Result<Text, Trouble> {
    let mut text = Text::new(alloc);
    append_line(&mut text, line.as_bytes())?;
    Ok(text)
}

/// The digits of a number.
pub fn number_text(alloc: Global, number: u64) -> Result<Text, Trouble> {
    let mut digits = Vec::new(alloc);
    append_decimal(&mut digits, number)?;
    Ok(Text::from_vec(digits))
}

/// A line of this number.
pub fn number_line(alloc: Global, number: u64) -> Result<Text, Trouble> {
    let mut text = Text::new(alloc);
    append_number(alloc, &mut text, number)?;
    text.append(b"\n")?;
    Ok(text)
}

/// Adds bytes and a newline.
pub fn append_line(text: &mut Text, line: &[u8]) -> Result<(), Trouble> {
    text.append(line)?;
    text.append(b"\n")?;
    Ok(())
}

/// Adds text.
pub fn append_str(text: &mut Text, more: &str) -> Result<(), Trouble> {
    text.append(more.as_bytes())?;
    Ok(())
}

/// Adds the digits of a number.
pub fn append_number(alloc: Global, text: &mut Text, number: u64) -> Result<(), Trouble> {
    text.append(number_text(alloc, number)?.bytes())?;
    Ok(())
}
