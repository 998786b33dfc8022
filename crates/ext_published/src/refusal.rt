ghost use Rattle.std.specs.Prelude.{◌≡◌, ◌++◌, decimal, IfOk, OnOk};
ghost use Rattle.ext_text.specs.Absolute.{absolute};
ghost use Rattle.ext_published.specs.Replies.{pub_refusal_details, pub_refusal_line, pub_refusal_number, published_line};

use ext_lines::append_decimal;
use ext_text::{Name, OutOfMemory, Path, Text};
use std::alloc::Global;

/// Why a run was refused.
#[derive(Drop, PartialEq, Eq)]
pub enum PubRefusal {
    /// There is no store (number 1).
    NoStore,
    /// Nothing stands at the path of the host (number 8).
    NoEntry {
        /// The path.
        path: Path,
    },
    /// What stands there is neither a directory nor a file (number 10).
    NotFile {
        /// The path.
        path: Path,
    },
    /// A path in the depot would pass the limits of a path (number 7).
    LimitPath,
    /// A file stands in the depot where a folder should, or a folder where the manifest should (number 36).
    OutKind {
        /// The least such path.
        path: Path,
    },
    /// The tree text, the old or the new manifest would have more than 67,108,864 bytes (number 7).
    LimitText,
    /// The manifest in the depot is faulty (number 35).
    OutManifest {
        /// Its first faulty line, counted from 1.
        line: u64,
    },
    /// The manifest in the depot lists the name, or that of its tree text (number 34).
    Listed {
        /// The name of the resource.
        name: Name,
    },
}

/// The number of a refusal.
pub fn number(refusal: &PubRefusal) -> u32
    ensures { result ≡ pub_refusal_number refusal.now }
{
    match refusal {
        PubRefusal::NoStore => 1,
        PubRefusal::NoEntry { .. } => 8,
        PubRefusal::NotFile { .. } => 10,
        PubRefusal::LimitPath => 7,
        PubRefusal::OutKind { .. } => 36,
        PubRefusal::LimitText => 7,
        PubRefusal::OutManifest { .. } => 35,
        PubRefusal::Listed { .. } => 34,
    }
}

/// The line of a refusal, with its newline: `refused`, the number, the word and the details, parted by spaces. Paths of the
/// host stand after a `/`, paths of the depot without one.
///
/// # Errors
/// `OutOfMemory` alone.
pub fn refusal_text(alloc: Global, refusal: &PubRefusal) -> Result<Text, OutOfMemory>
    ensures { IfOk result (λ text. text ≡ pub_refusal_line refusal.now) }
{
    let mut line = Vec::from_slice(alloc, b"refused ")?;
    append_decimal(&mut line, u64::from(number(refusal)))?;
    line.push(b' ')?;
    append_details(&mut line, refusal)?;
    line.push(b'\n')?;
    Ok(Text::from_vec(line))
}

/// The line of a run that was done, with its newline: `published`, the number of the files, and that of their bytes.
///
/// # Errors
/// `OutOfMemory` alone.
pub fn published_text(alloc: Global, files: u64, bytes: u64) -> Result<Text, OutOfMemory>
    ensures { IfOk result (λ text. text ≡ published_line files bytes) }
{
    let mut line = Vec::from_slice(alloc, b"published ")?;
    append_decimal(&mut line, files)?;
    line.push(b' ')?;
    append_decimal(&mut line, bytes)?;
    line.push(b'\n')?;
    Ok(Text::from_vec(line))
}

// The word and the details of a refusal.
fn append_details(line: &mut Vec<u8>, refusal: &PubRefusal) -> Result<(), OutOfMemory>
    ensures { OnOk result (line.new.items ≡ line.old.items ++ pub_refusal_details refusal.now) }
{
    match refusal {
        PubRefusal::NoStore => append_words(line, "no-store"),
        PubRefusal::NoEntry { path } => append_at(line, "no-entry ", path),
        PubRefusal::NotFile { path } => append_at(line, "not-file ", path),
        PubRefusal::LimitPath => append_words(line, "limit path"),
        PubRefusal::OutKind { path } => append_named(line, "out-kind ", path.text()),
        PubRefusal::LimitText => append_words(line, "limit text"),
        PubRefusal::OutManifest { line: at } => append_numbered(line, "out-manifest ", *at),
        PubRefusal::Listed { name } => append_named(line, "listed ", name.bytes()),
    }
}

// Words.
fn append_words(line: &mut Vec<u8>, words: &str) -> Result<(), OutOfMemory>
    ensures { OnOk result (line.new.items ≡ line.old.items ++ words.now) }
{
    line.extend_from_slice(words.as_bytes())?;
    Ok(())
}

// A word and a path of the host.
fn append_at(line: &mut Vec<u8>, word: &str, path: &Path) -> Result<(), OutOfMemory>
    ensures { OnOk result (line.new.items ≡ line.old.items ++ (word.now ++ absolute path.now)) }
{
    append_words(line, word)?;
    path.append_absolute(line)
}

// A word and a name.
fn append_named(line: &mut Vec<u8>, word: &str, name: &[u8]) -> Result<(), OutOfMemory>
    ensures { OnOk result (line.new.items ≡ line.old.items ++ (word.now ++ name.now)) }
{
    append_words(line, word)?;
    line.extend_from_slice(name)?;
    Ok(())
}

// A word and a number.
fn append_numbered(line: &mut Vec<u8>, word: &str, number: u64) -> Result<(), OutOfMemory>
    ensures { OnOk result (line.new.items ≡ line.old.items ++ (word.now ++ decimal number)) }
{
    append_words(line, word)?;
    append_decimal(line, number)
}
