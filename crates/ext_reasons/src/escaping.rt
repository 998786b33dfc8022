use ext_lines::allocated;
use ext_text::OutOfMemory;
use std::alloc::Global;

/// A text in which each control character is escaped, so that it stays on its line and can't steer a terminal.
///
/// # Errors
/// `OutOfMemory` alone.
pub fn escaped(alloc: Global, text: &str) -> Result<String, OutOfMemory> {
    let mut escaped = String::new(alloc);
    for character in text.chars() {
        push_escaped(&mut escaped, character)?;
    }
    Ok(escaped)
}

fn push_escaped(text: &mut String, character: char) -> Result<(), OutOfMemory> {
    if !character.is_control() {
        return allocated(text.push(character));
    }
    for part in character.escape_default() {
        allocated(text.push(part))?;
    }
    Ok(())
}
