// Texts that end in a number.
ghost use Rattle.std.specs.Prelude.{◌≡◌, ◌++◌, decimal, IfOk};
ghost use Rattle.ext_sample.specs.Sample.{sample_line};

use ext_lines::append_decimal;
use ext_text::{OutOfMemory, Text};
use std::alloc::Global;

// A text, and a number's decimal digits after it.
pub(crate) fn numbered(alloc: Global, text: &[u8], number: u64) -> Result<Vec<u8>, OutOfMemory>
    ensures { IfOk result (λ all. all.items ≡ text.now ++ decimal number) }
{
    let mut all = Vec::from_slice(alloc, text)?;
    append_decimal(&mut all, number)?;
    Ok(all)
}

// A text of one line: a word, a space and a number.
pub(crate) fn numbered_line(alloc: Global, word: &[u8], number: u64) -> Result<Text, OutOfMemory>
    ensures { IfOk result (λ text. text ≡ sample_line word.now number) }
{
    let mut line = Vec::from_slice(alloc, word)?;
    line.push(b' ')?;
    append_decimal(&mut line, number)?;
    line.push(b'\n')?;
    Ok(Text::from_vec(line))
}
