// The line of an entry, whatever it holds of a file's content: read back exactly, and printed.
ghost use Rattle.std.specs.Prelude.{◌≡◌, ◌≢◌, ◌<◌, ℕ, List, [], ◌∷◌, ◌++◌, length, IfOk, MatchOption, OnErr, OnOk};
ghost use Rattle.ext_attributes.specs.Attributes.{attributes_text, file_attributes_text, owned_number};
ghost use Rattle.ext_lines.specs.Prefix.{AppendsPrefix};
ghost use Rattle.ext_text.specs.Path.{IsPath, path_text};
ghost use Rattle.ext_tree.specs.Fields.{spaced};
ghost use Rattle.ext_tree.specs.EntryLine.{LineForm, FieldsOnce, FieldsLack, ReadsFields, ReadsLine, entry_fields, entry_line};

use crate::entry::Entry;
use crate::fields::{
    append_attributes, append_bytes, append_file_attributes, append_target, split_attributes,
    split_file_attributes, split_target,
};
use ext_attributes::{Attributes, FileAttributes, Owner};
use ext_lines::OutOfMemory;
use ext_text::{Path, PathErr, Text};
use std::alloc::Global;

/// Contents of files that a line holds.
pub trait LineContent: Sized {
    /// Which contents a line holds, and as which fields.
    ghost form: { LineForm Self };

    /// The content whose fields a text begins with, and what follows them; `None` exactly where it begins with those of no
    /// content that a line holds.
    fn split_from(text: &[u8]) -> Option<(Self, &[u8])>
        ensures { MatchOption result
            ((c : Self) (rest : List ℕ) → form.writable c → text.now ≢ spaced (form.fields c) rest)
            (λ r. form.writable r.0 × (text.now ≡ spaced (form.fields r.0) r.1.now)) };

    /// Adds the fields to a text, a space after each.
    ///
    /// # Errors
    /// `OutOfMemory`. A prefix of these bytes may have been added.
    fn append_to(&self, text: &mut Vec<u8>) -> Result<(), OutOfMemory>
        ensures ok { OnOk result (text.new.items ≡ text.old.items ++ spaced (form.fields self.now) []) }
        ensures err { OnErr result (AppendsPrefix text.old.items text.new.items (spaced (form.fields self.now) [])) };

    /// The fields of a content tell the content, and where they end.
    ghost once: { FieldsOnce form };

    /// No field of a content that a line holds has a newline.
    ghost lacks: { FieldsLack form };
}

/// The entry whose line this is, without its newline; `None` exactly where no entry has this line.
///
/// # Errors
/// Out of memory alone.
pub fn entry_of_line<C: LineContent + Drop>(
    alloc: Global,
    line: &[u8],
) -> Result<Option<(Path, Entry<C>)>, OutOfMemory>
    ensures { IfOk result (ReadsLine C.form line.now) }
{
    let Some((entry, rest)) = fields_of(alloc, line)? else {
        return Ok(None);
    };
    match path_of(alloc, rest)? {
        None => Ok(None),
        Some(path) => Ok(Some((path, entry))),
    }
}

/// The entry whose fields a text begins with, and what follows them, which on a line is the path; `None` exactly where it
/// begins with those of no entry that has a line.
///
/// # Errors
/// Out of memory alone.
pub fn fields_of<C: LineContent>(
    alloc: Global,
    text: &[u8],
) -> Result<Option<(Entry<C>, &[u8])>, OutOfMemory>
    ensures { IfOk result (ReadsFields C.form text.now) }
{
    match text {
        [b'd', b' ', fields @ ..] => Ok(dir_of(fields)),
        [b'o', b' ', fields @ ..] => Ok(opaque_of(fields)),
        [b'f', b' ', fields @ ..] => file_of(alloc, fields),
        [b'l', b' ', fields @ ..] => link_of(alloc, fields),
        [b'w', b' ', rest @ ..] => Ok(Some((Entry::Hide, rest))),
        _ => Ok(None),
    }
}

// The directory whose fields these are after the kind.
fn dir_of<C: LineContent>(fields: &[u8]) -> Option<(Entry<C>, &[u8])>
    ensures { ReadsFields C.form (100 ∷ 32 ∷ fields.now) result }
{
    let Some((attributes, rest)) = split_attributes(fields) else {
        return None;
    };
    Some((Entry::Dir(attributes), rest))
}

// The opaque directory whose fields these are after the kind.
fn opaque_of<C: LineContent>(fields: &[u8]) -> Option<(Entry<C>, &[u8])>
    ensures { ReadsFields C.form (111 ∷ 32 ∷ fields.now) result }
{
    let Some((attributes, rest)) = split_attributes(fields) else {
        return None;
    };
    Some((Entry::Opaque(attributes), rest))
}

// The file whose fields these are after the kind.
fn file_of<C: LineContent>(
    alloc: Global,
    fields: &[u8],
) -> Result<Option<(Entry<C>, &[u8])>, OutOfMemory>
    ensures { IfOk result (ReadsFields C.form (102 ∷ 32 ∷ fields.now)) }
{
    let Some(split) = split_file_attributes(alloc, fields)? else {
        return Ok(None);
    };
    let (attributes, after) = split;
    let Some((content, rest)) = C::split_from(after) else {
        return Ok(None);
    };
    Ok(Some((Entry::File(attributes, content), rest)))
}

// The link whose fields these are after the kind.
fn link_of<C: LineContent>(
    alloc: Global,
    fields: &[u8],
) -> Result<Option<(Entry<C>, &[u8])>, OutOfMemory>
    ensures { IfOk result (ReadsFields C.form (108 ∷ 32 ∷ fields.now)) }
{
    let Some((owner, target, rest)) = split_target(fields) else {
        return Ok(None);
    };
    let target = Text::from_bytes(alloc, target)?;
    Ok(Some((Entry::Link(owner, target), rest)))
}

/// The path whose text this is; `None` exactly where it is that of no path, or of the root.
///
/// # Errors
/// Out of memory alone.
pub fn path_of(alloc: Global, text: &[u8]) -> Result<Option<Path>, OutOfMemory>
    ensures { IfOk result (λ found. MatchOption found
        ((p : List (List ℕ)) → IsPath p → 0 < length p → text.now ≢ path_text p)
        (λ p. IsPath p × (0 < length p) × (text.now ≡ path_text p))) }
{
    if text.is_empty() {
        return Ok(None);
    }
    match Path::read(alloc, text) {
        Ok(path) => Ok(Some(path)),
        Err(refused) => match refused {
            PathErr::OutOfMemory => Err(OutOfMemory),
            PathErr::TooLong | PathErr::TooDeep | PathErr::BadName => Ok(None),
        },
    }
}

/// Adds an entry's line to a text, without a newline.
///
/// # Errors
/// `OutOfMemory`. A prefix of the line may have been added.
pub fn append_line<C: LineContent>(
    text: &mut Vec<u8>,
    path: &Path,
    entry: &Entry<C>,
) -> Result<(), OutOfMemory>
    ensures ok { OnOk result (text.new.items ≡ text.old.items ++ entry_line C.form (path.now, entry.now)) }
    ensures err { OnErr result (AppendsPrefix text.old.items text.new.items (entry_line C.form (path.now, entry.now))) }
{
    append_fields(text, entry)?;
    path.append_to(text)
}

/// Adds the fields of an entry's line to a text, a space after each.
///
/// # Errors
/// `OutOfMemory`. A prefix of these bytes may have been added.
pub fn append_fields<C: LineContent>(
    text: &mut Vec<u8>,
    entry: &Entry<C>,
) -> Result<(), OutOfMemory>
    ensures ok { OnOk result (text.new.items ≡ text.old.items ++ spaced (entry_fields C.form entry.now) []) }
    ensures err { OnErr result (AppendsPrefix text.old.items text.new.items (spaced (entry_fields C.form entry.now) [])) }
{
    match entry {
        Entry::Dir(attributes) => append_kind_and_attributes(text, b"d ", attributes),
        Entry::Opaque(attributes) => append_kind_and_attributes(text, b"o ", attributes),
        Entry::File(attributes, content) => append_file(text, attributes, content),
        Entry::Link(owner, target) => append_link(text, *owner, target.bytes()),
        Entry::Hide => append_bytes(text, b"w "),
    }
}

// Adds a kind with its space, attributes and a space.
fn append_kind_and_attributes(
    text: &mut Vec<u8>,
    kind: &[u8],
    attributes: &Attributes,
) -> Result<(), OutOfMemory>
    ensures ok { OnOk result (text.new.items ≡ text.old.items ++ (kind.now ++ (attributes_text attributes.now ++ 32 ∷ []))) }
    ensures err { OnErr result (AppendsPrefix text.old.items text.new.items (kind.now ++ (attributes_text attributes.now ++ 32 ∷ []))) }
{
    append_bytes(text, kind)?;
    append_attributes(text, attributes)
}

// Adds the fields of a file.
fn append_file<C: LineContent>(
    text: &mut Vec<u8>,
    attributes: &FileAttributes,
    content: &C,
) -> Result<(), OutOfMemory>
    ensures ok { OnOk result (text.new.items ≡ text.old.items ++
        (102 ∷ 32 ∷ (file_attributes_text attributes.now ++ 32 ∷ spaced (C.form.fields content.now) []))) }
    ensures err { OnErr result (AppendsPrefix text.old.items text.new.items
        (102 ∷ 32 ∷ (file_attributes_text attributes.now ++ 32 ∷ spaced (C.form.fields content.now) []))) }
{
    append_kind_and_file(text, attributes)?;
    content.append_to(text)
}

// Adds the kind of a file with its space, its attributes and a space.
fn append_kind_and_file(text: &mut Vec<u8>, attributes: &FileAttributes) -> Result<(), OutOfMemory>
    ensures ok { OnOk result (text.new.items ≡ text.old.items ++ (102 ∷ 32 ∷ (file_attributes_text attributes.now ++ 32 ∷ []))) }
    ensures err { OnErr result (AppendsPrefix text.old.items text.new.items (102 ∷ 32 ∷ (file_attributes_text attributes.now ++ 32 ∷ []))) }
{
    append_bytes(text, b"f ")?;
    append_file_attributes(text, attributes)
}

// Adds the fields of a link.
fn append_link(text: &mut Vec<u8>, owner: Owner, target: &[u8]) -> Result<(), OutOfMemory>
    ensures ok { OnOk result (text.new.items ≡ text.old.items ++
        (108 ∷ 32 ∷ spaced (owned_number (length target.now) owner ∷ target.now ∷ []) [])) }
    ensures err { OnErr result (AppendsPrefix text.old.items text.new.items
        (108 ∷ 32 ∷ spaced (owned_number (length target.now) owner ∷ target.now ∷ []) [])) }
{
    append_bytes(text, b"l ")?;
    append_target(text, owner, target)
}
