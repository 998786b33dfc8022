// The lines of a drop-in that name extensions.
ghost use Rattle.std.specs.Prelude.{◌≡◌, ◌++◌, ◌∷◌, [], IfOk, MatchOption, OnOk};
ghost use Rattle.ext_text.specs.Absolute.{absolute};
ghost use Rattle.ext_portext.specs.Lines.{extension_lines, line_of_place, quoted, quoted_byte};

use crate::extending::Extending;
use ext_text::{OutOfMemory, Path};
use std::alloc::Global;

// A line for each extension, in their order.
pub(crate) fn extension_lines(
    alloc: Global,
    extensions: &[Extending],
) -> Result<Vec<u8>, OutOfMemory>
    ensures { IfOk result (λ lines. lines.items ≡ extension_lines extensions.now) }
{
    let mut lines = Vec::new(alloc);
    'extensions: for extending in extensions {
        append_line(&mut lines, &extending.place)?;
    }
    Ok(lines)
}

// Appends the line of an extension at the place.
fn append_line(lines: &mut Vec<u8>, place: &Path) -> Result<(), OutOfMemory>
    ensures { OnOk result (lines.new.items ≡ lines.old.items ++ line_of_place place.now) }
{
    lines.extend_from_slice(b"ExtensionDirectories=")?;
    append_place(lines, place)?;
    lines.push(b'\n')?;
    Ok(())
}

// Appends the place as it is written for a reader, each byte quoted that has to be.
fn append_place(lines: &mut Vec<u8>, place: &Path) -> Result<(), OutOfMemory>
    ensures { OnOk result (lines.new.items ≡ lines.old.items ++ quoted (absolute place.now)) }
{
    lines.push(b'/')?;
    append_quoted(lines, place.text())
}

// Appends bytes, each quoted that has to be.
fn append_quoted(lines: &mut Vec<u8>, bytes: &[u8]) -> Result<(), OutOfMemory>
    ensures { OnOk result (lines.new.items ≡ lines.old.items ++ quoted bytes.now) }
{
    'bytes: for byte in bytes {
        append_byte(lines, *byte)?;
    }
    Ok(())
}

// Appends a byte, quoted where it has to be.
fn append_byte(lines: &mut Vec<u8>, byte: u8) -> Result<(), OutOfMemory>
    ensures { OnOk result (lines.new.items ≡ lines.old.items ++ quoted_byte byte) }
{
    match quote_of(byte) {
        Some(quote) => Ok(lines.extend_from_slice(quote)?),
        None => Ok(lines.push(byte)?),
    }
}

// How a byte is quoted; `None` where it stands for itself.
fn quote_of(byte: u8) -> Option<&'static [u8]>
    ensures { MatchOption result (quoted_byte byte ≡ byte ∷ []) (λ quote. quote.now ≡ quoted_byte byte) }
{
    if byte == b'%' {
        return Some(b"%%");
    }
    if byte == b' ' {
        return Some(b"\\x20");
    }
    if byte == b'\\' {
        return Some(b"\\x5c");
    }
    if byte == b'"' {
        return Some(b"\\x22");
    }
    if byte == b'\'' {
        return Some(b"\\x27");
    }
    None
}
