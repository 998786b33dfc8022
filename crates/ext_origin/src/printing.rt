// The lines of origins. Where memory runs out, parts of them have been added.
ghost use Rattle.std.specs.Prelude.{◌≡◌, ◌++◌, IfOk, OnOk};
ghost use Rattle.std.specs.List.{flat_map};
ghost use Rattle.ext_attributes.specs.Attributes.{attributes_text};
ghost use Rattle.ext_tree.specs.declared.entry.Entry.TheVariants.{File, Link};
ghost use Rattle.ext_origin.specs.Lines.{entry_words, finding_words, layer_words, origin_line, origins_text};

use crate::origin::{Finding, Layer, Origin};
use ext_attributes::{
    Attributes, FileAttributes, Owner, append_attributes, append_file_attributes, append_owner,
};
use ext_lines::append_decimal;
use ext_text::{OutOfMemory, Text};
use ext_tree::{Entry, Stamp};
use std::alloc::Global;

/// The lines of origins in their order, each with its newline: the layer, and after a space what it has at the path.
///
/// # Errors
/// Out of memory alone.
pub fn origins_text(alloc: Global, origins: &[Origin]) -> Result<Text, OutOfMemory>
    ensures { IfOk result (λ text. text ≡ origins_text origins.now) }
{
    let mut text = Vec::new(alloc);
    'origins: for origin in origins {
        append_origin(&mut text, origin)?;
    }
    Ok(Text::from_vec(text))
}

/// Adds the line of an origin, with its newline, at the end of a text: `image NAME X` or `base X`. X is the entry as the rows
/// of a tree text print it, without a path and without the length of a link's target, or `covers /AT`.
///
/// # Errors
/// Out of memory alone. Parts of the line may have been added.
pub fn append_origin(text: &mut Vec<u8>, origin: &Origin) -> Result<(), OutOfMemory>
    ensures { OnOk result (text.new.items ≡ text.old.items ++ origin_line origin.now) }
{
    append_layer(text, &origin.layer)?;
    text.push(b' ')?;
    append_finding(text, &origin.finding)?;
    text.push(b'\n')?;
    Ok(())
}

// Which layer it is.
fn append_layer(text: &mut Vec<u8>, layer: &Layer) -> Result<(), OutOfMemory>
    ensures { OnOk result (text.new.items ≡ text.old.items ++ layer_words layer.now) }
{
    match layer {
        Layer::Image(name) => append_two(text, b"image ", name.bytes()),
        Layer::Base => append_bytes(text, b"base"),
    }
}

// What a layer has at the path.
fn append_finding(text: &mut Vec<u8>, finding: &Finding) -> Result<(), OutOfMemory>
    ensures { OnOk result (text.new.items ≡ text.old.items ++ finding_words finding.now) }
{
    match finding {
        Finding::Has(entry) => append_entry(text, entry),
        Finding::Covers(at) => {
            append_bytes(text, b"covers ")?;
            at.append_absolute(text)
        }
    }
}

// An entry.
fn append_entry(text: &mut Vec<u8>, entry: &Entry<Stamp>) -> Result<(), OutOfMemory>
    ensures { OnOk result (text.new.items ≡ text.old.items ++ entry_words entry.now) }
{
    match entry {
        Entry::Dir(attributes) => append_directory(text, b"d ", attributes),
        Entry::Opaque(attributes) => append_directory(text, b"o ", attributes),
        Entry::File(attributes, stamp) => append_file(text, attributes, stamp),
        Entry::Link(owner, target) => append_link(text, *owner, target),
        Entry::Hide => append_bytes(text, b"w"),
    }
}

// A kind with its space, and the attributes of a directory.
fn append_directory(
    text: &mut Vec<u8>,
    kind: &[u8],
    attributes: &Attributes,
) -> Result<(), OutOfMemory>
    ensures { OnOk result (text.new.items ≡ text.old.items ++ (kind.now ++ attributes_text attributes.now)) }
{
    append_bytes(text, kind)?;
    append_attributes(text, attributes)
}

// A file: its attributes, its size and its digest.
fn append_file(
    text: &mut Vec<u8>,
    attributes: &FileAttributes,
    stamp: &Stamp,
) -> Result<(), OutOfMemory>
    ensures { OnOk result (text.new.items ≡ text.old.items ++ entry_words (File attributes.now stamp.now)) }
{
    append_bytes(text, b"f ")?;
    append_file_attributes(text, attributes)?;
    text.push(b' ')?;
    append_decimal(text, stamp.size)?;
    append_two(text, b" ", &stamp.digest.digits())
}

// A link: its owner, and its target.
fn append_link(text: &mut Vec<u8>, owner: Owner, target: &Text) -> Result<(), OutOfMemory>
    ensures { OnOk result (text.new.items ≡ text.old.items ++ entry_words (Link owner target.now)) }
{
    append_bytes(text, b"l")?;
    append_owner(text, owner)?;
    append_two(text, b" ", target.bytes())
}

// Bytes, and other bytes after them.
fn append_two(text: &mut Vec<u8>, first: &[u8], second: &[u8]) -> Result<(), OutOfMemory>
    ensures { OnOk result (text.new.items ≡ text.old.items ++ (first.now ++ second.now)) }
{
    append_bytes(text, first)?;
    append_bytes(text, second)
}

// Bytes.
fn append_bytes(text: &mut Vec<u8>, bytes: &[u8]) -> Result<(), OutOfMemory>
    ensures { OnOk result (text.new.items ≡ text.old.items ++ bytes.now) }
{
    text.extend_from_slice(bytes)?;
    Ok(())
}
