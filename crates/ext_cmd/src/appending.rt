// Parts of lines, each added at the end of a text. Where memory runs out, some of them have been added.
ghost use Rattle.std.specs.Prelude.{◌≡◌, ◌++◌, decimal, OnOk};
ghost use Rattle.hex.specs.Hex.{encode_lower};
ghost use Rattle.ext_text.specs.Absolute.{absolute};
ghost use Rattle.ext_cmd.specs.Replies.{lined};
ghost use Rattle.ext_cmd.specs.Refusals.{stamp_words};

use ext_lines::append_decimal;
use ext_text::{Digest, OutOfMemory, Path};
use ext_tree::Stamp;

// Words.
pub(crate) fn append_words(text: &mut Vec<u8>, words: &str) -> Result<(), OutOfMemory>
    ensures { OnOk result (text.new.items ≡ text.old.items ++ words.now) }
{
    text.extend_from_slice(words.as_bytes())?;
    Ok(())
}

// Words and a number.
pub(crate) fn append_numbered(
    text: &mut Vec<u8>,
    words: &str,
    number: u64,
) -> Result<(), OutOfMemory>
    ensures { OnOk result (text.new.items ≡ text.old.items ++ (words.now ++ decimal number)) }
{
    append_words(text, words)?;
    append_decimal(text, number)
}

// Words and a number, as a line.
pub(crate) fn append_numbered_line(
    text: &mut Vec<u8>,
    words: &str,
    number: u64,
) -> Result<(), OutOfMemory>
    ensures { OnOk result (text.new.items ≡ text.old.items ++ lined (words.now ++ decimal number)) }
{
    append_numbered(text, words, number)?;
    text.push(b'\n')?;
    Ok(())
}

// A word and a path of the host.
pub(crate) fn append_placed(text: &mut Vec<u8>, word: &str, path: &Path) -> Result<(), OutOfMemory>
    ensures { OnOk result (text.new.items ≡ text.old.items ++ (word.now ++ absolute path.now)) }
{
    append_words(text, word)?;
    path.append_absolute(text)
}

// Words and a digest, as a line.
pub(crate) fn append_digest(
    text: &mut Vec<u8>,
    words: &str,
    digest: &Digest,
) -> Result<(), OutOfMemory>
    ensures { OnOk result (text.new.items ≡ text.old.items ++ lined (words.now ++ encode_lower digest.now.0)) }
{
    append_words(text, words)?;
    text.extend_from_slice(&digest.digits())?;
    text.push(b'\n')?;
    Ok(())
}

// A line and its newline.
pub(crate) fn append_line(text: &mut Vec<u8>, line: &[u8]) -> Result<(), OutOfMemory>
    ensures { OnOk result (text.new.items ≡ text.old.items ++ lined line.now) }
{
    text.extend_from_slice(line)?;
    text.push(b'\n')?;
    Ok(())
}

// The size of a file, and its digest.
pub(crate) fn append_stamp(text: &mut Vec<u8>, stamp: &Stamp) -> Result<(), OutOfMemory>
    ensures { OnOk result (text.new.items ≡ text.old.items ++ stamp_words stamp.now) }
{
    append_decimal(text, stamp.size)?;
    text.push(b' ')?;
    text.extend_from_slice(&stamp.digest.digits())?;
    Ok(())
}
