ghost use Rattle.std.specs.Prelude.{◌≡◌, ℕ, List, [], ◌∷◌, ◌++◌, IfOk, OnOk};
ghost use Rattle.ext_tree.specs.Tree.{all_shown, as_shown};
ghost use Rattle.ext_tree.specs.TreeText.{AreWritable, HasText, IsTreeText, IsVersion, header, needed_version, tree_line, tree_text, version_of};

use crate::entry::{Entry, higher};
use crate::entry_line;
use crate::stamp::Stamp;
use crate::tree::Tree;
use ext_lines::OutOfMemory;
use ext_text::{Path, Text};
use std::alloc::Global;

// The first lines of texts of the versions.
const HEADER_1: &[u8] = b"hostext-tree 1\n";

const HEADER_2: &[u8] = b"hostext-tree 2\n";

const HEADER_3: &[u8] = b"hostext-tree 3\n";

// The index of the version in them.
const VERSION: usize = 13;

// The last one.
const END: &[u8] = b"end\n";

/// The text of a tree.
///
/// Where each link's target and each file's size is in the range of the format, it is the tree's text: reading it gives
/// the tree back. Elsewhere it is printed by the same rules, and no reader takes it.
///
/// # Errors
/// Out of memory alone.
pub fn write_tree(alloc: Global, tree: &Tree<Stamp>) -> Result<Text, OutOfMemory>
    ensures printed { IfOk result (λ text. text ≡ tree_text tree.now) }
    ensures text { AreWritable tree.now → IfOk result (λ text. IsTreeText text tree.now) }
{
    let mut text = Vec::from_slice(alloc, header(version_of(tree.pairs())))?;
    for (path, entry) in tree.pairs() {
        append_line(&mut text, path, entry)?;
    }
    text.extend_from_slice(END)?;
    Ok(Text::from_vec(text))
}

/// The text of borrowed entries as they show, in their order: an opaque directory is a directory like others. Where they
/// are those of a tree that has a text, it is that text. It stands in the memory of a buffer, whose bytes go.
///
/// # Errors
/// Out of memory alone.
pub fn write_entries_into(
    buffer: Text,
    entries: &[&(Path, Entry<Stamp>)],
) -> Result<Text, OutOfMemory>
    ensures printed { IfOk result (λ text. text ≡ tree_text (all_shown entries.now)) }
    ensures text { HasText (all_shown entries.now) → IfOk result (λ text. IsTreeText text (all_shown entries.now)) }
{
    let mut text = buffer.into_vec();
    text.clear();
    text.extend_from_slice(HEADER_1)?;
    let mut version = 1;
    // One pass tells the version too, since entries are many and lie far apart.
    for entry in entries {
        append_shown(&mut text, &entry.0, &entry.1)?;
        version = higher(version, shown_version(&entry.1));
    }
    tell_version(&mut text, version);
    text.extend_from_slice(END)?;
    Ok(Text::from_vec(text))
}

// Turns the header of version 1, with which a text begins, into that of this version.
fn tell_version(text: &mut Vec<u8>, version: u8)
    requires version { IsVersion version }
    requires begun { (lines : List ℕ) × (text.old.items ≡ (header 1 ++ 10 ∷ []) ++ lines) }
    ensures { (lines : List ℕ) → text.old.items ≡ (header 1 ++ 10 ∷ []) ++ lines → text.new.items ≡ (header version ++ 10 ∷ []) ++ lines }
{
    text[VERSION] = b'0' + version;
}

// The first line of a text, with its newline.
fn header(version: u8) -> &'static [u8]
    requires { IsVersion version }
    ensures { result.now ≡ header version ++ 10 ∷ [] }
{
    if version == 1 {
        HEADER_1
    } else if version == 2 {
        HEADER_2
    } else {
        HEADER_3
    }
}

// The first version that has a line for each entry.
fn version_of(entries: &[(Path, Entry<Stamp>)]) -> u8
    ensures value { result ≡ version_of entries.now }
    ensures known { IsVersion result }
{
    let mut version = 1;
    for entry in entries {
        version = higher(version, entry.1.needed_version());
    }
    version
}

// The first version that has a line for the entry as it shows.
fn shown_version(entry: &Entry<Stamp>) -> u8
    ensures { result ≡ needed_version (as_shown entry.now) }
{
    match entry {
        Entry::Opaque(attributes) => if attributes.is_plain() { 1 } else { 3 },
        Entry::Dir(_) | Entry::File(_, _) | Entry::Link(_, _) | Entry::Hide =>
            entry.needed_version(),
    }
}

// Adds the line of an entry as it shows, with its newline.
fn append_shown(text: &mut Vec<u8>, path: &Path, entry: &Entry<Stamp>) -> Result<(), OutOfMemory>
    ensures { OnOk result (text.new.items ≡ text.old.items ++ (tree_line (path.now, as_shown entry.now) ++ 10 ∷ [])) }
{
    match entry {
        Entry::Opaque(attributes) => append_line(text, path, &Entry::Dir(*attributes)),
        Entry::Dir(_) | Entry::File(_, _) | Entry::Link(_, _) | Entry::Hide => {
            append_line(text, path, entry)
        }
    }
}

// Adds an entry's line with its newline.
fn append_line(text: &mut Vec<u8>, path: &Path, entry: &Entry<Stamp>) -> Result<(), OutOfMemory>
    ensures { OnOk result (text.new.items ≡ text.old.items ++ (tree_line (path.now, entry.now) ++ 10 ∷ [])) }
{
    entry_line::append_line(text, path, entry)?;
    text.push(b'\n')?;
    Ok(())
}
