// The search for components.
ghost use Rattle.std.specs.Prelude.{◌≡◌, ◌+◌, ◌++◌, ◌∷◌, ℕ, List, [], IfOk, OnOk};
ghost use Rattle.std.specs.List.{Contains};
ghost use Rattle.std.specs.List.Sorted.{IsStrictlySortedBy};
ghost use Rattle.std.specs.Option.{option_to_list};
ghost use Rattle.ext_lines.specs.ByteOrder.{bytes_cmp};
ghost use Rattle.ext_walk.specs.Row.{Stands};
ghost use Rattle.ext_configs.specs.Components.{AreComponents};
ghost use Rattle.ext_configs.specs.Folders.{OpensRoot};
ghost use Rattle.ext_configs.specs.Listed.{ComponentAt, IsNameOf, ListsComponents, NamesComponent, in_roots_before};

use crate::folders::{count_of_roots, root_text};
use ext_text::{ListOf, Name, NameErr, Names, OutOfMemory, PathRef};
use ext_tree::Tree;
use ext_walk::{Next, directory_at, directory_of_text, next_name};
use std::alloc::Global;

/// What the names of the folders of components begin with.
const PREFIX: &[u8] = b"sysupdate.";

/// What they end in.
const SUFFIX: &[u8] = b".d";

/// The names of the components that have a folder in a base, by their bytes, each once: each name NAME for which one of `/etc`,
/// `/run`, `/usr/local/lib` and `/usr/lib` leads to a directory that has an entry `sysupdate.NAME.d` that leads to a directory.
///
/// After sysupdate.d(5). That a folder counts whatever it holds is this project's own choice.
///
/// The work grows with the names in the four directories that begin with `sysupdate.`, times its logarithm.
///
/// # Errors
/// `OutOfMemory` alone.
pub fn components<C>(alloc: Global, base: &Tree<C>) -> Result<Names, OutOfMemory>
    ensures { IfOk result (AreComponents base.now) }
{
    let mut names = Vec::new(alloc);
    'roots: for index in 0..count_of_roots() {
        add_root(alloc, base, index, &mut names)?;
    }
    Ok(ListOf::from_vec(in_order(names)))
}

// Adds the components that have a folder in the directory with this index.
fn add_root<C>(
    alloc: Global,
    base: &Tree<C>,
    index: usize,
    names: &mut Vec<Name>,
) -> Result<(), OutOfMemory>
    requires { ListsComponents base.now (in_roots_before index) names.old.items }
    ensures { OnOk result (ListsComponents base.now (in_roots_before (index + 1)) names.new.items) }
{
    match root_text(index) {
        None => Ok(()),
        Some(text) => match directory_of_text(alloc, base, text)? {
            None => Ok(()),
            Some(directory) => add_names(alloc, base, index, &directory, names),
        },
    }
}

// Adds those that have a folder in the directory to which the one with this index leads.
fn add_names<C>(
    alloc: Global,
    base: &Tree<C>,
    index: usize,
    directory: &PathRef,
    names: &mut Vec<Name>,
) -> Result<(), OutOfMemory>
    requires opens { OpensRoot base.now index directory.now }
    requires listed { ListsComponents base.now (in_roots_before index) names.old.items }
    ensures { OnOk result (ListsComponents base.now (in_roots_before (index + 1)) names.new.items) }
{
    let mut rest = base.named(directory, PREFIX);
    'names: loop {
        match next_name(base, rest, directory) {
            None => return Ok(()),
            Some(next) => {
                add_found(names, component_at(alloc, base, &next)?)?;
                rest = next.more;
            }
        }
    }
}

// Adds a name, if one was found.
fn add_found(names: &mut Vec<Name>, found: Option<Name>) -> Result<(), OutOfMemory>
    ensures { OnOk result (names.new.items ≡ names.old.items ++ option_to_list found) }
{
    match found {
        None => Ok(()),
        Some(name) => Ok(names.push(name)?),
    }
}

// The component whose folder the entry is that stands at a name of a directory, if it is one's.
fn component_at<C>(
    alloc: Global,
    base: &Tree<C>,
    next: &Next<C>,
) -> Result<Option<Name>, OutOfMemory>
    requires { Stands base.now next.now }
    ensures { (directory : List (List ℕ)) → next.now.entry.now.0 ≡ directory ++ next.now.name.now ∷ []
        → IfOk result (ComponentAt base.now directory next.now.name.now) }
{
    match component_name(alloc, next.name)? {
        None => Ok(None),
        Some(name) => match directory_at(alloc, base, &next.entry.0.names())? {
            None => Ok(None),
            Some(_directory) => Ok(Some(name)),
        },
    }
}

// The component whose folders have this name, if it is one's.
fn component_name(alloc: Global, folder: &[u8]) -> Result<Option<Name>, OutOfMemory>
    ensures { IfOk result (NamesComponent folder.now) }
{
    match folder.strip_prefix(PREFIX) {
        None => Ok(None),
        Some(rest) => match rest.strip_suffix(SUFFIX) {
            None => Ok(None),
            Some(bytes) => name_of(alloc, bytes),
        },
    }
}

// The name of these bytes, if they are one.
fn name_of(alloc: Global, bytes: &[u8]) -> Result<Option<Name>, OutOfMemory>
    ensures { IfOk result (IsNameOf bytes.now) }
{
    match Name::read(alloc, bytes) {
        Ok(name) => Ok(Some(name)),
        Err(NameErr::OutOfMemory) => Err(OutOfMemory),
        Err(NameErr::BadName) => Ok(None),
    }
}

// The names by their bytes, each once.
fn in_order(names: Vec<Name>) -> Vec<Name>
    ensures sorted { IsStrictlySortedBy bytes_cmp result.items }
    ensures whole { (name : List ℕ) → Contains names.items name → Contains result.items name }
    ensures alone { (name : List ℕ) → Contains result.items name → Contains names.items name }
{
    let mut sorted = names;
    sorted.sort_unstable();
    sorted.dedup();
    sorted
}
