// The search for units.
ghost use Rattle.std.specs.Prelude.{◌≡◌, ◌+◌, ◌++◌, ◌∷◌, ℕ, List, [], IfOk, OnOk};
ghost use Rattle.std.specs.BTreeMap.{IsOrdered};
ghost use Rattle.std.specs.List.{filter_map};
ghost use Rattle.ext_lines.specs.ByteOrder.{bytes_cmp};
ghost use Rattle.ext_text.specs.Name.{IsName};
ghost use Rattle.ext_walk.specs.Row.{Stands};
ghost use Rattle.ext_units.specs.Kept.{KeepsEntry, KeepsNext, KeepsUnits, earlier_entries, unit_with};
ghost use Rattle.ext_units.specs.Units.{AreUnits, OpensUnits};

use crate::directories::{count_of_directories, directory_text};
use crate::prefixes::Prefixes;
use crate::text_set::TextSet;
use crate::unit_entry::{UnitEntry, entry_at};
use crate::unit_file::{UnitFile, Units};
use ext_text::{Name, OutOfMemory, PathRef};
use ext_tree::Tree;
use ext_walk::{Next, directory_of_text, next_name};
use std::alloc::Global;
use std::collections::BTreeMap;

// What is kept so far: of each name of a unit what its first entry says.
type Kept = BTreeMap<Name, UnitEntry>;

// What a search looks for, and where.
#[derive(Drop)]
struct Search<'a, C> {
    alloc: Global,
    tree: &'a Tree<C>,
    prefixes: TextSet<'a>,
}

/// The units of a tree that have one of the prefixes, by the bytes of their names. A unit's name ends in `.service`, `.socket`,
/// `.target`, `.timer` or `.path`, and begins with a prefix and a `-`, `.` or `@` after it.
///
/// They are in three directories, which are looked through in this order, and followed through links: `/etc/systemd/system`,
/// `/usr/local/lib/systemd/system`, `/usr/lib/systemd/system`. Of each name the first entry decides, whatever it is: where it leads
/// to a file, that is the unit, and where it does not, as a whiteout, there is none of this name.
///
/// After portablectl(1). The order of the directories, and that an entry hides those of its name in later ones, is this project's
/// own choice.
///
/// The work grows with the names in the directories times its logarithm, and for each with the separators in it times the logarithm
/// of the number of prefixes.
///
/// # Errors
/// `OutOfMemory` alone.
pub fn units_in<C>(alloc: Global, tree: &Tree<C>, prefixes: &Prefixes) -> Result<Units, OutOfMemory>
    ensures { IfOk result (AreUnits tree.now prefixes.now) }
{
    let set = TextSet::of(alloc, prefixes.as_slice())?;
    let search = Search {
        alloc,
        tree,
        prefixes: set,
    };
    let mut kept = BTreeMap::new(alloc);
    'directories: for index in 0..count_of_directories() {
        keep_directory(&search, index, &mut kept)?;
    }
    units_kept(alloc, kept)
}

// Keeps what is new in the directory of units with this index.
fn keep_directory<C>(search: &Search<C>, index: usize, kept: &mut Kept) -> Result<(), OutOfMemory>
    requires { KeepsUnits search.now.tree.now search.now.prefixes (earlier_entries index) kept.old }
    ensures { OnOk result (KeepsUnits search.now.tree.now search.now.prefixes (earlier_entries (index + 1)) kept.new) }
{
    match directory_text(index) {
        None => Ok(()),
        Some(text) => match directory_of_text(search.alloc, search.tree, text)? {
            None => Ok(()),
            Some(directory) => keep_names(search, index, &directory, kept),
        },
    }
}

// Keeps what is new in the directory to which the one with this index leads.
fn keep_names<C>(
    search: &Search<C>,
    index: usize,
    directory: &PathRef,
    kept: &mut Kept,
) -> Result<(), OutOfMemory>
    requires opens { OpensUnits search.now.tree.now index directory.now }
    requires kept { KeepsUnits search.now.tree.now search.now.prefixes (earlier_entries index) kept.old }
    ensures { OnOk result (KeepsUnits search.now.tree.now search.now.prefixes (earlier_entries (index + 1)) kept.new) }
{
    let mut rest = search.tree.below(directory);
    'names: loop {
        match next_name(search.tree, rest, directory) {
            None => return Ok(()),
            Some(next) => {
                keep_next(search, &next, kept)?;
                rest = next.more;
            }
        }
    }
}

// Keeps what the entry that stands at a name of a directory says, if it has the name of a unit, and that name has none yet.
fn keep_next<C>(search: &Search<C>, next: &Next<C>, kept: &mut Kept) -> Result<(), OutOfMemory>
    requires { Stands search.now.tree.now next.now }
    ensures { (directory : List (List ℕ)) → next.now.entry.now.0 ≡ directory ++ next.now.name.now ∷ []
        → OnOk result (KeepsNext search.now.tree.now search.now.prefixes directory next.now.name.now kept.old kept.new) }
{
    let entry = entry_at(search.alloc, search.tree, &search.prefixes, next)?;
    keep_entry(search.alloc, kept, next.name, entry)
}

// Keeps what an entry says whose name has none yet.
fn keep_entry(
    alloc: Global,
    kept: &mut Kept,
    name: &[u8],
    entry: Option<UnitEntry>,
) -> Result<(), OutOfMemory>
    requires { IsName name.now }
    ensures { OnOk result (KeepsEntry kept.old kept.new name.now entry) }
{
    match entry {
        None => Ok(()),
        Some(entry) => {
            let name = Name::of_bytes(alloc, name)?;
            if !kept.contains_key(&name) {
                let _ = kept.insert(name, entry)?;
            }
            Ok(())
        }
    }
}

// The units among what was kept, in their order.
fn units_kept(alloc: Global, kept: Kept) -> Result<Units, OutOfMemory>
    ensures units { IfOk result (λ units. units ≡ filter_map (λ e. unit_with e.0 e.1) kept.entries) }
    ensures ordered { IsOrdered bytes_cmp kept }
{
    let units = kept
        .into_iter()
        .filter_map(|(name, entry)| unit_of(name, entry))
        .collect(alloc)?;
    Ok(Units::from_vec(units))
}

// The unit of this name, where its entry leads to a file.
fn unit_of(name: Name, entry: UnitEntry) -> Option<UnitFile>
    ensures { result ≡ unit_with name entry }
{
    match entry {
        UnitEntry::NoFile => None,
        UnitEntry::Leads(file) => Some(UnitFile { name, file }),
    }
}
