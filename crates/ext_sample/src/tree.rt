// The tree of files that are made.
ghost use Rattle.std.specs.Prelude.{◌≡◌, ◌≤◌, length, IfOk, OnOk};
ghost use Rattle.std.specs.List.{AllByRecursion};
ghost use Rattle.std.specs.List.Sorted.{IsStrictlySortedBy};
ghost use Rattle.std.specs.Map.{keys_of};
ghost use Rattle.ext_attributes.specs.Attributes.{of_mode};
ghost use Rattle.ext_text.specs.Path.{path_cmp};
ghost use Rattle.ext_tree.specs.declared.entry.Entry.TheVariants as entries;
ghost use Rattle.ext_sample.specs.Made.{IsTreeOf, made_file, made_stamp};
ghost use Rattle.ext_sample.specs.Making.{IsSmallFile, PutsAbove, PutsDirectories, PutsAt, PutsFiles};

use ext_attributes::{Attributes, FileAttributes};
use ext_text::{Digest, Mode, OutOfMemory, Path, Text};
use ext_tree::{Entry, Stamp, Tree};
use std::alloc::Global;
use std::collections::BTreeMap;

// What stands at each path, in path order.
type Entries = BTreeMap<Path, Entry<Stamp>>;

// The mode of each directory.
const DIRECTORY: u16 = 0o755;

// The mode of each file.
const FILE: u16 = 0o644;

// The tree of the files.
pub(crate) fn tree_of(alloc: Global, files: &[(Path, Text)]) -> Result<Tree<Stamp>, OutOfMemory>
    requires small { AllByRecursion IsSmallFile files.now }
    requires few { length files.now ≤ 40000 }
    ensures { IfOk result (IsTreeOf files.now) }
{
    let mut entries = BTreeMap::new(alloc);
    put_files(&mut entries, files)?;
    put_directories(alloc, &mut entries, files)?;
    Ok(Tree::from_pairs(pairs_of(alloc, entries)?))
}

// Puts each file, of two with one path the first: it comes last, in the place of the other.
fn put_files(entries: &mut Entries, files: &[(Path, Text)]) -> Result<(), OutOfMemory>
    ensures { OnOk result (PutsFiles entries.old.entries entries.new.entries files.now) }
{
    let mut left = files;
    'files: loop {
        match left.split_last() {
            None => return Ok(()),
            Some(((path, bytes), before)) => {
                put(entries, path.copy()?, file(bytes.bytes()))?;
                left = before;
            }
        }
    }
}

// Puts a directory at each path above a file.
fn put_directories(
    alloc: Global,
    entries: &mut Entries,
    files: &[(Path, Text)],
) -> Result<(), OutOfMemory>
    requires { AllByRecursion IsSmallFile files.now }
    ensures { OnOk result (PutsDirectories entries.old.entries entries.new.entries files.now) }
{
    'files: for (path, _bytes) in files {
        put_above(alloc, entries, path)?;
    }
    Ok(())
}

// Puts a directory at each path above this one.
fn put_above(alloc: Global, entries: &mut Entries, path: &Path) -> Result<(), OutOfMemory>
    requires { length path.now ≤ 5 }
    ensures { OnOk result (PutsAbove entries.old.entries entries.new.entries path.now) }
{
    let names = path.names();
    'above: for count in 1..names.depth() {
        let above = Path::of_names(alloc, &names.prefix(count))?;
        put(entries, above, directory())?;
    }
    Ok(())
}

// Puts an entry at a path, whatever stood there.
fn put(entries: &mut Entries, path: Path, entry: Entry<Stamp>) -> Result<(), OutOfMemory>
    ensures { OnOk result (PutsAt entries.old.entries entries.new.entries path entry) }
{
    match entries.insert(path, entry) {
        Ok(_replaced) => Ok(()),
        Err(_refused) => Err(OutOfMemory),
    }
}

// The entries in path order.
fn pairs_of(alloc: Global, entries: Entries) -> Result<Vec<(Path, Entry<Stamp>)>, OutOfMemory>
    ensures same { IfOk result (λ pairs. pairs.items ≡ entries.entries) }
    ensures sorted { IfOk result (λ pairs. IsStrictlySortedBy path_cmp (keys_of pairs.items)) }
{
    let mut pairs = Vec::with_capacity(alloc, entries.len())?;
    'entries: for pair in entries {
        pairs.push(pair)?;
    }
    Ok(pairs)
}

// A directory of root's, of mode 755.
fn directory() -> Entry<Stamp>
    ensures { result ≡ entries.Dir (of_mode 493) }
{
    match Mode::new(DIRECTORY) {
        Some(mode) => Entry::Dir(Attributes::of_mode(mode)),
        None => unreachable!(),
    }
}

// A file of root's, of mode 644 and without a capability, with these bytes.
fn file(bytes: &[u8]) -> Entry<Stamp>
    ensures { result ≡ made_file bytes.now }
{
    match Mode::new(FILE) {
        Some(mode) => Entry::File(FileAttributes::of_mode(mode), stamp(bytes)),
        None => unreachable!(),
    }
}

// The stamp of bytes.
fn stamp(bytes: &[u8]) -> Stamp
    ensures { result ≡ made_stamp bytes.now }
{
    Stamp {
        size: bytes.len() as u64,
        digest: Digest::of(bytes),
    }
}
