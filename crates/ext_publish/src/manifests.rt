// The texts of a run: the tree text, the old manifest and the new one.
ghost use Rattle.std.specs.Prelude.{◌≡◌, ◌<◌, ◌≤◌, length, IfErr, IfOk};
ghost use Rattle.ext_text.specs.Name.{IsName};
ghost use Rattle.ext_disk.specs.Since.{Rests};
ghost use Rattle.ext_published.specs.Manifest.{ListsNeither, most_published_text, with_listing};
ghost use Rattle.ext_published.specs.Payload.{listing_name};
ghost use Rattle.ext_published.specs.Places.{published_manifest_path};
ghost use Rattle.ext_published.specs.Published.{text_of_payload};
ghost use Rattle.ext_publish.specs.Out.{manifest_bytes};
ghost use Rattle.ext_publish.specs.Refusing.{HasShortManifest, HasShortText, look_digest};
ghost use Rattle.ext_publish.specs.Looking.{HoldsNow, NewCause, OldCause, ShortTextCause, ManifestFound, digest_of_text, is_short};
ghost use Rattle.ext_publish.specs.declared.look_err.LookErr.TheVariants as look_errors;

use crate::look_err::LookErr;
use ext_disk::Disk;
use ext_published::{
    Asked, MOST_TEXT, Payload, judge_manifest, size_with_listing, text_of_payload, with_listing,
};
use ext_store_files::{Found, read_file};
use ext_text::{Digest, Path, Text};
use std::alloc::Global;

/// The text of a directory's tree, where it is short enough.
///
/// # Errors
/// `LimitText` exactly where it is not, and out of memory.
pub(crate) fn short_text(alloc: Global, payload: &Payload) -> Result<Option<Text>, LookErr>
    ensures ok { IfOk result (λ text. (text ≡ text_of_payload payload.now) × HasShortText payload.now) }
    ensures err { IfErr result (ShortTextCause payload.now) }
{
    let text = text_of_payload(alloc, payload)?;
    if is_short(&text) {
        Ok(text)
    } else {
        Err(LookErr::LimitText)
    }
}

// Whether a text, if there is one, has at most 67,108,864 bytes.
fn is_short(text: &Option<Text>) -> bool
    ensures { result ≡ is_short text.now }
{
    match text {
        None => true,
        Some(text) => text.bytes().len() <= MOST_TEXT,
    }
}

/// The manifest that stands, the empty one where there is none.
///
/// # Errors
/// `LimitText` exactly where it is too long; `OutKind` exactly where a folder stands there; a fault of the disk, out of memory. The
/// disk is as before.
pub(crate) fn old_manifest<O: Disk>(
    alloc: Global,
    out: &mut O,
    asked: &Asked,
    manifest: &Path,
) -> Result<Text, LookErr>
    requires { manifest.now ≡ published_manifest_path asked.now }
    ensures short { IfOk result (λ text. length text ≤ most_published_text) }
    ensures ok { IfOk result (λ text. HoldsNow (O.state out.old) (λ t. text ≡ manifest_bytes t asked.now)) }
    ensures rests { Rests (O.state out.old) (O.state out.new) }
    ensures cause { IfErr result (OldCause (O.state out.old) (O.state out.new) asked.now) }
{
    let found = read_file(alloc, out, manifest, MOST_TEXT)?;
    text_found(alloc, found, manifest)
}

// The text of a manifest that was found.
fn text_found(alloc: Global, found: Found, manifest: &Path) -> Result<Text, LookErr>
    ensures { ManifestFound manifest.now found result }
{
    match found {
        Found::File(text) => short_file(text),
        Found::Absent => Ok(Text::new(alloc)),
        Found::TooLong => Err(LookErr::LimitText),
        Found::Folder => {
            let path = manifest.copy()?;
            Err(LookErr::OutKind { path })
        }
    }
}

// The text of a file, where it is short enough.
fn short_file(text: Text) -> Result<Text, LookErr>
    ensures ok { IfOk result (λ same. (same ≡ text) × (length text ≤ most_published_text)) }
    ensures err { IfErr result (λ e. (e ≡ look_errors.LimitText) × (most_published_text < length text)) }
{
    if text.bytes().len() <= MOST_TEXT {
        Ok(text)
    } else {
        Err(LookErr::LimitText)
    }
}

/// The manifest with the new line, where it is short enough and may list what is asked.
///
/// # Errors
/// The first of these: `LimitText` exactly where it would be too long, `OutManifest` exactly where the old one is none, `Listed`
/// exactly where that lists what is asked. Out of memory.
pub(crate) fn new_manifest(
    alloc: Global,
    asked: &Asked,
    payload: &Payload,
    text: &Option<Text>,
    old: Text,
) -> Result<Text, LookErr>
    requires text { text.now ≡ text_of_payload payload.now }
    requires short { length old ≤ most_published_text }
    ensures ok { IfOk result (λ new. (new ≡ with_listing old (look_digest payload.now) (listing_name payload.now asked.now.name))
        × HasShortManifest asked.now payload.now old × ListsNeither old asked.now.name) }
    ensures err { IfErr result (NewCause asked.now payload.now old) }
{
    let name = listing_name(asked, payload);
    let digest = listed_digest(payload, text);
    let _bytes = digest.bytes();
    if size_with_listing(old.bytes(), name) > MOST_TEXT {
        return Err(LookErr::LimitText);
    }
    judge_manifest(alloc, old.bytes(), asked)?;
    Ok(with_listing(old, &digest, name)?)
}

// The name that the manifest lists.
fn listing_name<'a>(asked: &'a Asked, payload: &Payload) -> &'a [u8]
    ensures same { result.now ≡ listing_name payload.now asked.now.name }
    ensures name { IsName result.now }
{
    match payload {
        Payload::Directory(_) => asked.tree_text_name().bytes(),
        Payload::File(_) => asked.name().bytes(),
    }
}

// The digest that the manifest lists: that of a directory's tree text, or that with which a file is listed.
fn listed_digest(payload: &Payload, text: &Option<Text>) -> Digest
    requires { text.now ≡ text_of_payload payload.now }
    ensures { result.0 ≡ look_digest payload.now }
{
    match payload {
        Payload::File(held) => held.stamp().digest,
        Payload::Directory(_) => digest_of_text(text),
    }
}

// The digest of a text, if there is one.
fn digest_of_text(text: &Option<Text>) -> Digest
    ensures { result.0 ≡ digest_of_text text.now }
{
    match text {
        Some(text) => Digest::of(text.bytes()),
        None => Digest::of(b""),
    }
}
