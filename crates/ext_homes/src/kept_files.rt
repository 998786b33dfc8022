// The files that the host before keeps, of stamps that are looked for, in the order of their stamps and, of one stamp, of
// their homes.
ghost use Rattle.std.specs.Prelude.{◌≡◌, ◌++◌, filter, IfOk, OnOk};
ghost use Rattle.std.specs.List.{AllByRecursion};
ghost use Rattle.std.specs.List.Sorted.{IsStrictlySortedBy};
ghost use Rattle.std.specs.Option.{option_copied};
ghost use Rattle.ext_tree.specs.Tree.{IsTree};
ghost use Rattle.ext_homes.specs.Giving.{trees_before};
ghost use Rattle.ext_homes.specs.KeptFiles.{HaveSame, entry_kept, has_stamp, is_before, kept_cmp, past_trees, tree_kept, trees_kept};
ghost use Rattle.ext_homes.specs.Sought.{is_sought};

use crate::sought::Sought;
use ext_host::{Body, Held, Home, Host, Past};
use ext_text::{OutOfMemory, Path};
use ext_tree::{Entry, Stamp, Tree};
use std::alloc::Global;
use std::marker::Model;

/// A stamp, in an order of stamps.
#[derive(Clone, Copy, PartialEq, Eq, PartialOrd, Ord)]
pub(crate) struct StampKey {
    size: u64,
    digest: [u8; 32],
}

/// A home, in the order of generations and then of the numbers of files.
#[derive(Clone, Copy, PartialEq, Eq, PartialOrd, Ord)]
pub(crate) struct HomeKey {
    generation: u32,
    file: u32,
}

/// A file that is kept: its stamp, and where it is.
#[derive(Clone, Copy, PartialEq, Eq, PartialOrd, Ord)]
pub(crate) struct KeptFile {
    stamp: StampKey,
    home: HomeKey,
}

impl StampKey {
    ghost use Rattle.ext_homes.specs.KeptFiles.{stamp_key};

    fn of(stamp: &Stamp) -> StampKey
        ensures { result ≡ stamp_key stamp.now }
    {
        StampKey {
            size: stamp.size,
            digest: stamp.digest.0,
        }
    }
}

impl KeptFile {
    ghost use Rattle.ext_homes.specs.KeptFiles.{kept_file, home_of};

    fn of(stamp: &Stamp, home: &Home) -> KeptFile
        ensures { result ≡ kept_file stamp.now home.now }
    {
        let home = HomeKey {
            generation: home.generation,
            file: home.file,
        };
        KeptFile {
            stamp: StampKey::of(stamp),
            home,
        }
    }

    /// Where the file is.
    pub(crate) fn home(&self) -> Home
        ensures { result ≡ home_of self.now }
    {
        Home {
            generation: self.home.generation,
            file: self.home.file,
        }
    }
}

/// The files that a host keeps, of all its trees and of stamps that are looked for, each once, ordered for a search. Contracts
/// see them as a list in that order.
#[derive(Drop)]
pub(crate) struct KeptFiles {
    pub(crate) files: Vec<KeptFile>,
}

impl Model for KeptFiles {
    ghost use Rattle.std.specs.Prelude.{List};
    ghost use Rattle.std.specs.List.Sorted.{IsStrictlySortedBy};
    ghost use Rattle.ext_homes.specs.KeptFiles.{kept_cmp};
    ghost use Rattle.ext_homes.specs.declared.kept_files.KeptFile.{KeptFile};

    ghost Value = { List KeptFile };

    ghost view = { λ k. k.files.items };

    ghost invariant = { λ k. IsStrictlySortedBy kept_cmp k.files.items };
}

impl KeptFiles {
    ghost use Rattle.ext_homes.specs.KeptFiles.{AreKept, AreInOrder, stamp_key};

    /// The files that the host before keeps, of stamps that are looked for: of what is seen, of what lies under it, and of the
    /// past trees. Of no host, none.
    ///
    /// # Errors
    /// `OutOfMemory` alone.
    pub(crate) fn of(
        alloc: Global,
        from: Option<&Host>,
        sought: &Sought,
    ) -> Result<KeptFiles, OutOfMemory>
        ensures { IfOk result (AreKept (trees_before (option_copied from.entry)) (is_sought sought.now)) }
    {
        let mut files = files_of(alloc, from, sought)?;
        sort_once(&mut files);
        Ok(KeptFiles { files })
    }

    /// The files of this stamp, in the order of their homes.
    pub(crate) fn of_stamp(&self, stamp: &Stamp) -> &[KeptFile]
        ensures same { result.now ≡ filter (has_stamp (stamp_key stamp.now)) self.now }
        ensures order { AreInOrder result.now }
    {
        let key = StampKey::of(stamp);
        let passed = self.files.partition_point(|file| is_before(&key, file));
        let (_passed, rest) = self.files.split_at(passed);
        let count = rest.partition_point(|file| has_stamp(&key, file));
        let (files, _rest) = rest.split_at(count);
        files
    }
}

// Whether the file's stamp comes before this one.
fn is_before(key: &StampKey, file: &KeptFile) -> bool
    ensures { result ≡ is_before key.now file.now }
{
    file.stamp.cmp(key).is_lt()
}

// Whether the file has this stamp.
fn has_stamp(key: &StampKey, file: &KeptFile) -> bool
    ensures { result ≡ has_stamp key.now file.now }
{
    file.stamp.cmp(key).is_eq()
}

// Kept files while they are collected, and how many there were when each stood once.
#[derive(Drop)]
struct Collected {
    files: Vec<KeptFile>,
    once: usize,
}

// The kept files of a host that are looked for. There are never more than twice as many as stand once, and those of one tree.
fn files_of(
    alloc: Global,
    from: Option<&Host>,
    sought: &Sought,
) -> Result<Vec<KeptFile>, OutOfMemory>
    ensures files { IfOk result (λ files. HaveSame (trees_kept (is_sought sought.now) (trees_before (option_copied from.entry)))
        files.items) }
    ensures trees { OnOk result (AllByRecursion (λ es. IsTree es) (trees_before (option_copied from.entry))) }
{
    let mut collected = Collected {
        files: Vec::new(alloc),
        once: 0,
    };
    match from {
        None => Ok(collected.files),
        Some(host) => {
            append_tree(&mut collected, &host.root, sought)?;
            append_tree(&mut collected, &host.lower, sought)?;
            append_past(&mut collected, host.past.as_slice(), sought)?;
            Ok(collected.files)
        }
    }
}

// Adds those of past trees.
fn append_past(collected: &mut Collected, past: &[Past], sought: &Sought) -> Result<(), OutOfMemory>
    ensures files { OnOk result (HaveSame (collected.old.files.items ++ trees_kept (is_sought sought.now) (past_trees past.now))
        collected.new.files.items) }
    ensures trees { OnOk result (AllByRecursion (λ es. IsTree es) (past_trees past.now)) }
{
    for tree in past {
        append_tree(collected, &tree.root, sought)?;
        append_tree(collected, &tree.lower, sought)?;
    }
    Ok(())
}

// Adds those of a tree.
fn append_tree(
    collected: &mut Collected,
    tree: &Tree<Held>,
    sought: &Sought,
) -> Result<(), OutOfMemory>
    ensures files { OnOk result (HaveSame (collected.old.files.items ++ tree_kept (is_sought sought.now) tree.now)
        collected.new.files.items) }
    ensures tree { IsTree tree.now }
{
    append_pairs(&mut collected.files, tree.pairs(), sought)?;
    thin(collected);
    Ok(())
}

// Leaves each file once where there are twice as many as when that was done last.
fn thin(collected: &mut Collected)
    ensures { HaveSame collected.old.files.items collected.new.files.items }
{
    if collected.files.len() / 2 >= collected.once {
        sort_once(&mut collected.files);
        collected.once = collected.files.len();
    }
}

// Sorts files, and leaves each once.
fn sort_once(files: &mut Vec<KeptFile>)
    ensures same { HaveSame files.old.items files.new.items }
    ensures sorted { IsStrictlySortedBy kept_cmp files.new.items }
{
    files.sort_unstable();
    files.dedup();
}

// Adds those among entries.
fn append_pairs(
    files: &mut Vec<KeptFile>,
    pairs: &[(Path, Entry<Held>)],
    sought: &Sought,
) -> Result<(), OutOfMemory>
    ensures { OnOk result (files.new.items ≡ files.old.items ++ tree_kept (is_sought sought.now) pairs.now) }
{
    for pair in pairs {
        append_entry(files, &pair.1, sought)?;
    }
    Ok(())
}

// Adds the entry's file, where it is kept and looked for.
fn append_entry(
    files: &mut Vec<KeptFile>,
    entry: &Entry<Held>,
    sought: &Sought,
) -> Result<(), OutOfMemory>
    ensures { OnOk result (files.new.items ≡ files.old.items ++ entry_kept (is_sought sought.now) entry.now) }
{
    if let Entry::File(_, held) = entry
        && let Body::Kept(home) = held.body()
        && sought.has(held.stamp())
    {
        files.push(KeptFile::of(held.stamp(), home))?;
    }
    Ok(())
}
