// Resources of the depot, whose tree texts follow from their entries, and manifests that list files.
use crate::acts::Files;
use crate::scene::Scene;
use ext_attributes::{Attributes, read_attributes, read_file_attributes, read_owned_number};
use ext_case::{Trouble, append_line, name, one, one_and_more, path, written};
use ext_text::{Digest, Path, Text};
use ext_tree::{Entry, Stamp, Tree, write_tree};
use ext_trial_disks::{below, cut};
use std::alloc::Global;
use std::collections::BTreeMap;

/// A resource: its path in the depot, and what statements have put into it.
#[derive(Drop)]
pub(crate) struct Resource {
    at: Text,
    entries: BTreeMap<Path, Entry<Stamp>>,
}

impl Resource {
    // Where its tree text stands, and that text.
    fn tree(&self, alloc: Global) -> Result<(Path, Text), Trouble> {
        let mut tree = Tree::new(alloc);
        for (at, entry) in self.entries.iter() {
            put_entry(alloc, &mut tree, at, entry)?;
        }
        let text = write_tree(alloc, &tree)?;
        Ok((ended(alloc, &self.at, b".tree")?, text))
    }

    // Where its file at a path stands.
    fn file(&self, alloc: Global, at: &Path) -> Result<Path, Trouble> {
        let mut text = self.at.copy()?;
        text.append(b"/")?;
        ended(alloc, &text, at.text())
    }
}

// The path of a text with this ending.
fn ended(alloc: Global, text: &Text, ending: &[u8]) -> Result<Path, Trouble> {
    let mut whole = text.copy()?;
    whole.append(ending)?;
    path(alloc, &whole)
}

// Puts an entry into a tree, and the directories above it that are missing.
fn put_entry(
    alloc: Global,
    tree: &mut Tree<Stamp>,
    at: &Path,
    entry: &Entry<Stamp>,
) -> Result<(), Trouble> {
    let Some(attributes) = directory_attributes(b"") else {
        return Err(Trouble::Unreadable("no attributes"));
    };
    for depth in 1..at.depth() {
        let above = at.prefix(depth)?;
        if tree.get(&above).is_none() {
            insert(tree, above, Entry::Dir(attributes))?;
        }
    }
    insert(tree, at.copy()?, entry.copy(alloc)?)
}

fn insert(tree: &mut Tree<Stamp>, at: Path, entry: Entry<Stamp>) -> Result<(), Trouble> {
    match tree.insert(at, entry) {
        Ok(()) => Ok(()),
        Err(_) => Err(Trouble::Unreadable("the entry can't stand there")),
    }
}

// The attributes of a directory that a word tells behind its letter, as `:700` or `:700:8:9`; a directory of root's where it
// tells nothing.
fn directory_attributes(told: &[u8]) -> Option<Attributes> {
    match told {
        [b':', field @ ..] => read_attributes(field),
        _ => read_attributes(b"755"),
    }
}

// A directory of these attributes, which may be opaque.
fn directory_of(told: &[u8], is_opaque: bool) -> Result<Entry<Stamp>, Trouble> {
    match directory_attributes(told) {
        None => Err(Trouble::Unreadable("no attributes")),
        Some(attributes) if is_opaque => Ok(Entry::Opaque(attributes)),
        Some(attributes) => Ok(Entry::Dir(attributes)),
    }
}

// A file of these bytes, with its attributes, likewise.
fn file_of(alloc: Global, told: &[u8], bytes: &Text) -> Result<Entry<Stamp>, Trouble> {
    let field = match told {
        [b':', field @ ..] => field,
        _ => b"644",
    };
    match read_file_attributes(alloc, field)? {
        None => Err(Trouble::Unreadable("no attributes")),
        Some(attributes) => Ok(Entry::File(attributes, stamp_of(bytes))),
    }
}

// A link with this target, and its owner, told as `:8:9`.
fn link_of(alloc: Global, told: &[u8], target: &Text) -> Result<Entry<Stamp>, Trouble> {
    let mut field = written(alloc, b"1")?;
    field.append(told)?;
    match read_owned_number(field.bytes(), 1) {
        None => Err(Trouble::Unreadable("no owner")),
        Some((_, owner)) => Ok(Entry::Link(owner, target.copy()?)),
    }
}

/// Whether a statement of this word puts an entry into a resource.
pub(crate) fn is_entry(word: &str) -> bool {
    match word.as_bytes() {
        [kind] => b"dflow".contains(kind),
        [kind, b':', ..] => b"dflo".contains(kind),
        _ => false,
    }
}

/// `resource NAME`: a resource of the depot without entries.
pub(crate) fn begin(alloc: Global, scene: &mut Scene, name: &Text) -> Result<(), Trouble> {
    let resource = Resource {
        at: name.copy()?,
        entries: BTreeMap::new(alloc),
    };
    keep(alloc, scene, resource)
}

// Puts the tree text of a resource into the depot. Statements that follow speak of it.
fn keep(alloc: Global, scene: &mut Scene, resource: Resource) -> Result<(), Trouble> {
    let (at, text) = resource.tree(alloc)?;
    scene.put(at, text)?;
    scene.resource = Some(resource);
    Ok(())
}

/// `f PATH BYTES`, `l PATH TARGET`, `d PATH`, `o PATH` or `w PATH`: an entry of the resource, in the place of one that stood
/// there. Attributes may follow the letter, as in `f:755`, `d:700:8:9` or `f:755:0:0:1:1024:0:0`, and a link's owner as in
/// `l:8:9`.
pub(crate) fn put(
    alloc: Global,
    scene: &mut Scene,
    word: &str,
    arguments: &[Text],
) -> Result<(), Trouble> {
    let (at, rest) = one_and_more(arguments)?;
    let at = path(alloc, at)?;
    let entry = entry_of(alloc, word.as_bytes(), rest)?;
    match scene.resource.take() {
        None => Err(Trouble::Unreadable("no resource was begun")),
        Some(resource) => put_into(alloc, scene, resource, at, entry, rest),
    }
}

// Puts an entry into the resource, and the bytes of a file, which stand behind its path, into the depot.
fn put_into(
    alloc: Global,
    scene: &mut Scene,
    mut resource: Resource,
    at: Path,
    entry: Entry<Stamp>,
    rest: &[Text],
) -> Result<(), Trouble> {
    if entry.is_file() {
        let file = resource.file(alloc, &at)?;
        scene.put(file, one(rest)?.copy()?)?;
    }
    resource.entries.insert(at, entry)?;
    keep(alloc, scene, resource)
}

// The entry of a word, and of what stands behind its path.
fn entry_of(alloc: Global, word: &[u8], rest: &[Text]) -> Result<Entry<Stamp>, Trouble> {
    match (word, rest) {
        ([b'f', told @ ..], [bytes]) => file_of(alloc, told, bytes),
        ([b'l', told @ ..], [target]) => link_of(alloc, told, target),
        ([b'd', told @ ..], []) => directory_of(told, false),
        ([b'o', told @ ..], []) => directory_of(told, true),
        ([b'w'], []) => Ok(Entry::Hide),
        _ => Err(Trouble::Unreadable("an entry of another kind")),
    }
}

fn stamp_of(bytes: &Text) -> Stamp {
    Stamp {
        size: bytes.bytes().len() as u64,
        digest: Digest::of(bytes.bytes()),
    }
}

/// `listed PATH ..`: each file of the depot is listed in the manifest of its folder, in the order of the names.
pub(crate) fn list(alloc: Global, scene: &mut Scene, arguments: &[Text]) -> Result<(), Trouble> {
    for argument in arguments {
        let (sums, text) = listed(alloc, &scene.files, argument)?;
        scene.put(sums, text)?;
    }
    Ok(())
}

// Where the manifest of a file's folder stands, and its text once it lists the file.
fn listed(alloc: Global, files: &Files, at: &Text) -> Result<(Path, Text), Trouble> {
    let Some(bytes) = files.get(&path(alloc, at)?) else {
        return Err(Trouble::Unreadable("no such file in the depot"));
    };
    let (dir, file) = cut(alloc, at.bytes())?;
    let line = line_of(alloc, bytes.bytes(), file.bytes())?;
    let sums = below(&dir, &name(alloc, &written(alloc, b"SHA256SUMS")?)?)?;
    let old = match files.get(&sums) {
        Some(old) => old.bytes(),
        None => b"",
    };
    let text = with_line(alloc, old, line.bytes())?;
    Ok((sums, text))
}

fn line_of(alloc: Global, bytes: &[u8], file: &[u8]) -> Result<Text, Trouble> {
    let mut line = written(alloc, Digest::of(bytes).digits().as_slice())?;
    line.append(b"  ")?;
    line.append(file)?;
    Ok(line)
}

// A manifest with a line more, in the place of one of the same name.
fn with_line(alloc: Global, sums: &[u8], line: &[u8]) -> Result<Text, Trouble> {
    let mut text = Text::new(alloc);
    let mut is_before = true;
    for other in sums.split(|byte| *byte == b'\n') {
        if other.is_empty() || name_in(other) == name_in(line) {
            continue;
        }
        if is_before && name_in(other) > name_in(line) {
            is_before = false;
            append_line(&mut text, line)?;
        }
        append_line(&mut text, other)?;
    }
    if is_before {
        append_line(&mut text, line)?;
    }
    Ok(text)
}

/// The name in a line of a manifest, after its digest and two blanks.
pub(crate) fn name_in(line: &[u8]) -> &[u8] {
    line.get(66..).unwrap_or(b"")
}
