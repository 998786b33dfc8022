ghost use Rattle.std.specs.Prelude.{◌≡◌, ◌++◌, codes, decimal, IfOk, OnOk};
ghost use Rattle.ext_text.specs.Absolute.{absolute};
ghost use Rattle.ext_mount.specs.Replies.{image_refusal_details, image_refusal_line, image_refusal_number};

use ext_lines::append_decimal;
use ext_text::{OutOfMemory, Path, Text};
use std::alloc::Global;

/// Why a run was refused.
#[derive(Drop, PartialEq, Eq)]
pub enum ImageRefusal {
    /// There is no store (number 1).
    NoStore,
    /// No mark has this generation (number 37).
    NoMark {
        /// The generation's number.
        mark: u32,
    },
    /// The target of a link is longer than the 4,095 bytes that Linux reads of an image's link (number 38).
    LongLink {
        /// The least path of such a link.
        path: Path,
    },
}

/// The number of a refusal.
pub fn number(refusal: &ImageRefusal) -> u32
    ensures { result ≡ image_refusal_number refusal.now }
{
    match refusal {
        ImageRefusal::NoStore => 1,
        ImageRefusal::NoMark { .. } => 37,
        ImageRefusal::LongLink { .. } => 38,
    }
}

/// The line of a refusal, with its newline: `refused`, the number, the word and the details, parted by spaces. Paths stand after a
/// `/`.
///
/// # Errors
/// `OutOfMemory` alone.
pub fn refusal_text(alloc: Global, refusal: &ImageRefusal) -> Result<Text, OutOfMemory>
    ensures { IfOk result (λ text. text ≡ image_refusal_line refusal.now) }
{
    let mut line = Vec::from_slice(alloc, b"refused ")?;
    append_decimal(&mut line, u64::from(number(refusal)))?;
    line.push(b' ')?;
    append_details(&mut line, refusal)?;
    line.push(b'\n')?;
    Ok(Text::from_vec(line))
}

// The word and the details of a refusal.
fn append_details(line: &mut Vec<u8>, refusal: &ImageRefusal) -> Result<(), OutOfMemory>
    ensures { OnOk result (line.new.items ≡ line.old.items ++ image_refusal_details refusal.now) }
{
    match refusal {
        ImageRefusal::NoStore => append_words(line, "no-store"),
        ImageRefusal::NoMark { mark } => append_mark(line, *mark),
        ImageRefusal::LongLink { path } => append_link(line, path),
    }
}

// Words.
fn append_words(line: &mut Vec<u8>, words: &str) -> Result<(), OutOfMemory>
    ensures { OnOk result (line.new.items ≡ line.old.items ++ words.now) }
{
    line.extend_from_slice(words.as_bytes())?;
    Ok(())
}

// A generation without a mark.
fn append_mark(line: &mut Vec<u8>, mark: u32) -> Result<(), OutOfMemory>
    ensures { OnOk result (line.new.items ≡ line.old.items ++ (codes "no-mark " ++ decimal mark)) }
{
    append_words(line, "no-mark ")?;
    append_decimal(line, u64::from(mark))
}

// A link that is too long.
fn append_link(line: &mut Vec<u8>, path: &Path) -> Result<(), OutOfMemory>
    ensures { OnOk result (line.new.items ≡ line.old.items ++ (codes "link " ++ absolute path.now)) }
{
    append_words(line, "link ")?;
    path.append_absolute(line)
}
