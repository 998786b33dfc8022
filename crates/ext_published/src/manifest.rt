// Manifests with one line more.
ghost use Rattle.std.specs.Prelude.{◌≡◌, ℕ, List, ◌++◌, ◌≤◌, [], ◌∷◌, length, IfOk, OnOk};
ghost use Rattle.ext_text.specs.Digest.{IsDigest};
ghost use Rattle.ext_published.specs.Manifest.{JudgesManifest, JudgesSums, ends_line, listing_line, most_published_text, with_last_newline, with_listing};

use crate::asked::Asked;
use ext_sums::{Sums, SumsErr, read_sums};
use ext_text::{Digest, OutOfMemory, Text};
use std::alloc::Global;
use thiserror::Error;

/// The most bytes of a manifest and of a tree text.
pub const MOST_TEXT: usize = 67_108_864;

/// The bytes of a listing's line beside the name: the digest's digits, two spaces and a newline.
const BESIDE_NAME: usize = 67;

/// Why a manifest may not list a resource.
#[derive(Clone, Copy, Debug, PartialEq, Eq, Error)]
pub enum ManifestErr {
    /// An allocation failed.
    #[error("out of memory")]
    OutOfMemory,
    /// The manifest is none.
    #[error("line {line} of the manifest is faulty")]
    Faulty {
        /// Its first faulty line, counted from 1.
        line: u64,
    },
    /// It lists the resource or its tree text already.
    #[error("the manifest lists the name")]
    Listed,
}

impl From<SumsErr> for ManifestErr {
    ghost use Rattle.std.specs.Prelude.{◌≡◌};
    ghost use Rattle.ext_published.specs.Manifest.{manifest_err_of};

    ghost from_gives = { λ e f. f ≡ manifest_err_of e };

    fn from(refused: SumsErr) -> ManifestErr {
        match refused {
            SumsErr::OutOfMemory => ManifestErr::OutOfMemory,
            SumsErr::BadManifest { line } => ManifestErr::Faulty { line },
        }
    }
}

/// Looks whether a manifest may list what is asked: it is one, and lists neither the name nor that of its tree text.
///
/// # Errors
/// The first of these:
///
/// - `Faulty` exactly where it is no manifest, with its first faulty line.
/// - `Listed` exactly where it lists one of the two names.
///
/// `OutOfMemory` may come at any time.
pub fn judge_manifest(alloc: Global, text: &[u8], asked: &Asked) -> Result<(), ManifestErr>
    ensures { JudgesManifest text.now asked.now.name result }
{
    let sums = read_sums(alloc, text)?;
    judge_sums(&sums, asked)
}

// Looks whether a manifest lists one of the names.
fn judge_sums(sums: &Sums, asked: &Asked) -> Result<(), ManifestErr>
    ensures { JudgesSums sums.now asked.now.name result }
{
    let listed = sums.digest_of(asked.name().bytes());
    let text_listed = sums.digest_of(asked.tree_text_name().bytes());
    match (listed, text_listed) {
        (None, None) => Ok(()),
        _ => Err(ManifestErr::Listed),
    }
}

/// The manifest with one line more, which lists a name with a digest as sha256sum(1) does. Where the last newline is missing,
/// it is added first.
///
/// # Errors
/// `OutOfMemory` alone.
pub fn with_listing(old: Text, digest: &Digest, name: &[u8]) -> Result<Text, OutOfMemory>
    ensures { IfOk result (λ text. text ≡ with_listing old digest.now.0 name.now) }
{
    let mut text = old.into_vec();
    end_line(&mut text)?;
    append_listing(&mut text, digest, name)?;
    Ok(Text::from_vec(text))
}

// Adds a newline, where the last line has none.
fn end_line(text: &mut Vec<u8>) -> Result<(), OutOfMemory>
    ensures { OnOk result (text.new.items ≡ with_last_newline text.old.items) }
{
    if ends_line(text.as_slice()) {
        return Ok(());
    }
    text.push(b'\n')?;
    Ok(())
}

// Adds the line of a listing, with its newline.
fn append_listing(text: &mut Vec<u8>, digest: &Digest, name: &[u8]) -> Result<(), OutOfMemory>
    ensures { OnOk result (text.new.items ≡ text.old.items ++ (listing_line digest.now.0 name.now ++ 10 ∷ [])) }
{
    text.extend_from_slice(&digest.digits())?;
    text.extend_from_slice(b"  ")?;
    text.extend_from_slice(name)?;
    text.push(b'\n')?;
    Ok(())
}

/// How many bytes a manifest of at most 67,108,864 bytes has with one line more.
pub fn size_with_listing(old: &[u8], name: &[u8]) -> usize
    requires old { length old.now ≤ most_published_text }
    requires name { length name.now ≤ 255 }
    ensures { (digest : List ℕ) → IsDigest digest → result ≡ length (with_listing old.now digest name.now) }
{
    let line = BESIDE_NAME + name.len();
    if ends_line(old) {
        old.len() + line
    } else {
        old.len() + 1 + line
    }
}

// Whether a text is empty or ends in a newline.
fn ends_line(text: &[u8]) -> bool
    ensures { result ≡ ends_line text.now }
{
    match text {
        [] => true,
        [.., last] => *last == b'\n',
    }
}
