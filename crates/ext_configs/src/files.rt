// The search for configuration files.
ghost use Rattle.std.specs.Prelude.{◌≡◌, ◌+◌, length, IfOk, OnOk};
ghost use Rattle.std.specs.BTreeMap.{IsOrdered};
ghost use Rattle.std.specs.List.{filter_map};
ghost use Rattle.std.specs.Option.{option_copied};
ghost use Rattle.ext_lines.specs.ByteOrder.{bytes_cmp};
ghost use Rattle.ext_text.specs.Name.{IsName};
ghost use Rattle.ext_configs.specs.Configs.{AreConfigs};
ghost use Rattle.ext_configs.specs.Folders.{OpensFolder};
ghost use Rattle.ext_configs.specs.Kept.{KeepsConfigs, KeepsEntry, file_with, in_folders_before};

use crate::entry::{ConfigEntry, entry_at};
use crate::folders::{count_of_roots, folder_text};
use crate::kind::ConfigKind;
use crate::search::Search;
use ext_find::Measured;
use ext_text::{Name, OutOfMemory, PathRef};
use ext_transfer::Component;
use ext_tree::Tree;
use ext_walk::{directory_of_text, next_name};
use std::alloc::Global;
use std::collections::BTreeMap;

/// A configuration file that counts.
#[derive(Drop)]
pub struct ConfigFile<'a, C> {
    /// Its name in its folder, with the suffix.
    pub name: Name,
    /// What is known of the bytes of the file to which it leads.
    pub content: &'a C,
}

// What is kept so far: of each name what the first entry that counts says.
type Kept<'a, C> = BTreeMap<Name, ConfigEntry<'a, C>>;

/// The transfer files or feature files of a component, or of none, that count in a base, by the bytes of their names.
///
/// They are in four folders, which are looked through in this order, and followed through links: `/etc/FOLDER`, `/run/FOLDER`,
/// `/usr/local/lib/FOLDER`, `/usr/lib/FOLDER`. Of no component FOLDER is `sysupdate.d`, and of a component `sysupdate.NAME.d`.
///
/// Of the entries directly in a folder those count whose name ends in the suffix and doesn't begin with a dot, and which are a mask
/// or lead to a file. A mask is an empty file, or a link to `/dev/null`; a link to an empty file is none. Any other entry is passed
/// over, and hides nothing. Of each name the first entry that counts decides: where it is a mask, there is no such file.
///
/// After sysupdate.d(5) and sysupdate.features(5). What counts, and what hides what, is this project's own choice where those are
/// silent.
///
/// The work grows with the names in the folders times its logarithm.
///
/// # Errors
/// `OutOfMemory` alone.
pub fn config_files<'a, C: Measured>(
    alloc: Global,
    base: &'a Tree<C>,
    component: Option<&Component>,
    kind: ConfigKind,
) -> Result<Vec<ConfigFile<'a, C>>, OutOfMemory>
    ensures { IfOk result (λ files. AreConfigs C.size base.now (option_copied component.entry) kind files.items) }
{
    let search = Search {
        alloc,
        base,
        component,
        kind,
    };
    let mut kept = BTreeMap::new(alloc);
    'folders: for index in 0..count_of_roots() {
        keep_folder(&search, index, &mut kept)?;
    }
    files_of(alloc, kept)
}

// Keeps what is new in the folder with this index.
fn keep_folder<'a, C: Measured>(
    search: &Search<'a, '_, C>,
    index: usize,
    kept: &mut Kept<'a, C>,
) -> Result<(), OutOfMemory>
    requires { KeepsConfigs C.size search.now.base.now (option_copied search.now.component) search.now.kind
        (in_folders_before index) kept.old }
    ensures { OnOk result (KeepsConfigs C.size search.now.base.now (option_copied search.now.component) search.now.kind
        (in_folders_before (index + 1)) kept.new) }
{
    match folder_text(search.alloc, search.component, index)? {
        None => Ok(()),
        Some(text) => match directory_of_text(search.alloc, search.base, text.bytes())? {
            None => Ok(()),
            Some(directory) => keep_names(search, index, &directory, kept),
        },
    }
}

// Keeps what is new in the directory to which the folder with this index leads.
fn keep_names<'a, C: Measured>(
    search: &Search<'a, '_, C>,
    index: usize,
    directory: &PathRef,
    kept: &mut Kept<'a, C>,
) -> Result<(), OutOfMemory>
    requires opens { OpensFolder search.now.base.now (option_copied search.now.component) index directory.now }
    requires kept { KeepsConfigs C.size search.now.base.now (option_copied search.now.component) search.now.kind
        (in_folders_before index) kept.old }
    ensures { OnOk result (KeepsConfigs C.size search.now.base.now (option_copied search.now.component) search.now.kind
        (in_folders_before (index + 1)) kept.new) }
{
    let mut rest = search.base.below(directory);
    'names: loop {
        match next_name(search.base, rest, directory) {
            None => return Ok(()),
            Some(next) => {
                keep_entry(search.alloc, kept, next.name, entry_at(search, &next)?)?;
                rest = next.more;
            }
        }
    }
}

// Keeps what an entry says whose name has none yet.
fn keep_entry<'a, C>(
    alloc: Global,
    kept: &mut Kept<'a, C>,
    name: &[u8],
    entry: Option<ConfigEntry<'a, C>>,
) -> Result<(), OutOfMemory>
    requires { IsName name.now }
    ensures { OnOk result (KeepsEntry kept.old kept.new name.now entry.entry) }
{
    match entry {
        None => Ok(()),
        Some(entry) => {
            let name = Name::of_bytes(alloc, name)?;
            if !kept.contains_key(&name) {
                let _ = kept.insert(name, entry)?;
            }
            Ok(())
        }
    }
}

// The files among what was kept, in their order.
fn files_of<'a, C>(alloc: Global, kept: Kept<'a, C>) -> Result<Vec<ConfigFile<'a, C>>, OutOfMemory>
    ensures files { IfOk result (λ files. files.items ≡ filter_map (λ e. file_with e.0 e.1) kept.entry.entries) }
    ensures ordered { IsOrdered bytes_cmp kept.entry }
{
    Ok(
        kept.into_iter()
            .filter_map(|(name, entry)| file_of(name, entry))
            .collect(alloc)?,
    )
}

// The file of this name, where what its entry says is no mask.
fn file_of<'a, C>(name: Name, entry: ConfigEntry<'a, C>) -> Option<ConfigFile<'a, C>>
    ensures { result ≡ file_with name entry.entry }
{
    match entry {
        ConfigEntry::Mask => None,
        ConfigEntry::Content(content) => Some(ConfigFile { name, content }),
    }
}
