// The search itself.
ghost use Rattle.std.specs.Prelude.{◌≡◌, ◌+◌, map, length, IfOk, OnOk};
ghost use Rattle.std.specs.BTreeMap.{IsOrdered};
ghost use Rattle.ext_vers.specs.Version.{order_of};
ghost use Rattle.ext_find.specs.Directories.{Opens};
ghost use Rattle.ext_find.specs.Found.{AreFound};
ghost use Rattle.ext_find.specs.Keeps.{Keeps, KeepsToo, before};
ghost use Rattle.ext_find.specs.Usable.{item_with};

use crate::content::Measured;
use crate::directories::{count_of_directories, opened};
use crate::found::{Found, FoundItem};
use crate::found_image::FoundImage;
use crate::search::Search;
use crate::stem::Stem;
use crate::usable::usable_at;
use ext_text::{Arch, Class, ListOf, Names, OutOfMemory, PathRef};
use ext_tree::Tree;
use ext_walk::next_name;
use std::alloc::Global;
use std::collections::BTreeMap;

// What was found so far: of each stem the first usable entry. The order of the stems finds one, and no hash, since whoever
// names images could choose names of one hash.
type Kept = BTreeMap<Stem, FoundImage>;

/// The images of a class that a host has, with its masks and its images in files, in the order of versions of the names.
///
/// The search directories are looked through in this order:
///
/// | class | directories |
/// |---|---|
/// | `Sysext` | `/etc/extensions`, `/run/extensions`, `/var/lib/extensions` |
/// | `Confext` | `/run/confexts`, `/var/lib/confexts`, `/usr/local/lib/confexts`, `/usr/lib/confexts` |
/// | `Portable` | `/etc/portables`, `/run/portables`, `/var/lib/portables`, `/usr/local/lib/portables`, `/usr/lib/portables` |
///
/// The stem of a name is what is left without one ending `.raw.v`, `.raw` or `.v`. Of each stem the first usable entry
/// counts, by its directory, then by the bytes of its name. Its kind does not matter. Usable are, of the names that do not
/// begin with a dot:
///
/// - An empty file and a link to `/dev/null`: a mask, whatever the ending.
/// - A name without an ending that leads to a directory: an image.
/// - `N.v` that leads to a directory with candidates `N_VERSION` or `N_VERSION_ARCH`, names that lead to directories: the
///   image that no other candidate exceeds, by the order of versions, and of one version by the bytes of the names. An
///   architecture counts after a version alone, and then only the given one.
/// - `N.raw` that leads to a file that is not empty, and `N.raw.v` that leads to a directory: an image in a file.
///
/// An image is broken as [`why_broken`](crate::why_broken) says, at the given hierarchies of its class. For `Portable` they
/// are not looked at. An image whose place is past the limits of a path is not usable, and no other candidate is tried.
///
/// After systemd-sysext(8), systemd-confext(8), portablectl(1) and systemd.v(7). The order of the directories of the last
/// two classes, the order within a directory, and what those pages are silent on, are this project's own choice.
///
/// The work grows with the names in the search directories and with what is looked at in each image, times logarithms,
/// whatever the names are.
///
/// # Errors
/// `OutOfMemory` alone.
pub fn find<C: Measured>(
    alloc: Global,
    base: &Tree<C>,
    class: Class,
    arch: Arch,
    hierarchies: &Names,
) -> Result<Found, OutOfMemory>
    ensures { IfOk result (AreFound C.size base.now class arch hierarchies.now) }
{
    let search = Search {
        alloc,
        base,
        class,
        arch,
        hierarchies,
    };
    let mut kept = BTreeMap::new(alloc);
    'directories: for index in 0..count_of_directories(class) {
        keep_directory(&search, index, &mut kept)?;
    }
    items_of(alloc, kept)
}

// Keeps what is new in the search directory with this index.
fn keep_directory<C: Measured>(
    search: &Search<C>,
    index: usize,
    kept: &mut Kept,
) -> Result<(), OutOfMemory>
    requires { Keeps C.size search.now.base.now search.now.class search.now.arch search.now.hierarchies.now (before index) kept.old }
    ensures { OnOk result (Keeps C.size search.now.base.now search.now.class search.now.arch search.now.hierarchies.now
        (before (index + 1)) kept.new) }
{
    match opened(search.alloc, search.base, search.class, index)? {
        None => Ok(()),
        Some(directory) => keep_names(search, index, &directory, kept),
    }
}

// Keeps what is new in the directory to which the search directory with this index leads.
fn keep_names<C: Measured>(
    search: &Search<C>,
    index: usize,
    directory: &PathRef,
    kept: &mut Kept,
) -> Result<(), OutOfMemory>
    requires opens { Opens search.now.base.now search.now.class index directory.now }
    requires kept { Keeps C.size search.now.base.now search.now.class search.now.arch search.now.hierarchies.now (before index) kept.old }
    ensures { OnOk result (Keeps C.size search.now.base.now search.now.class search.now.arch search.now.hierarchies.now
        (before (index + 1)) kept.new) }
{
    let mut rest = search.base.below(directory);
    'names: loop {
        match next_name(search.base, rest, directory) {
            None => return Ok(()),
            Some(next) => {
                keep_item(kept, usable_at(search, &next)?)?;
                rest = next.more;
            }
        }
    }
}

// Keeps an item whose stem has none.
fn keep_item(kept: &mut Kept, item: Option<FoundItem>) -> Result<(), OutOfMemory>
    ensures { OnOk result (KeepsToo kept.old kept.new item) }
{
    match item {
        None => Ok(()),
        Some(
            FoundItem {
                name,
                place,
                kind,
                release,
            },
        ) => {
            let stem = Stem::new(name);
            if !kept.contains_key(&stem) {
                let found_image = FoundImage {
                    place,
                    kind,
                    release,
                };
                let _ = kept.insert(stem, found_image)?;
            }
            Ok(())
        }
    }
}

// The items that were kept, in their order.
fn items_of(alloc: Global, kept: Kept) -> Result<Found, OutOfMemory>
    ensures items { IfOk result (λ items. items ≡ map (λ e. item_with e.0 e.1) kept.entries) }
    ensures ordered { IsOrdered order_of kept }
{
    let items = kept
        .into_iter()
        .map(|(stem, found_image)| item_of(stem, found_image))
        .collect(alloc)?;
    Ok(ListOf::from_vec(items))
}

// The item of this stem.
fn item_of(stem: Stem, found_image: FoundImage) -> FoundItem
    ensures { result ≡ item_with stem found_image }
{
    let FoundImage {
        place,
        kind,
        release,
    } = found_image;
    FoundItem {
        name: stem.into_name(),
        place,
        kind,
        release,
    }
}
