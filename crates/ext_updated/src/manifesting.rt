// The manifest of what stands at a path.
ghost use Rattle.std.specs.Prelude.{◌≡◌, ◌++◌, IfOk, OnOk};
ghost use Rattle.std.specs.Option.{option_copied};
ghost use Rattle.ext_updated.specs.Manifests.{IsManifestAt, file_item, file_items, top_items};

use ext_host::{Held, Item, Items, Manifest};
use ext_text::{OutOfMemory, Path};
use ext_tree::{Entry, Tree};
use std::alloc::Global;

/// The manifest of what stands at and below the path: the path, and each file there with the digest of its bytes, in path order.
/// In the tree after an update, that of a piece's path is the manifest of the piece. It is made by a search and one pass over what
/// stands there. That is this project's own choice.
///
/// # Errors
/// `OutOfMemory` alone.
pub fn manifest_at(alloc: Global, tree: &Tree<Held>, path: &Path) -> Result<Manifest, OutOfMemory>
    ensures { IfOk result (IsManifestAt tree.now path.now) }
{
    let mut items = Vec::new(alloc);
    append_top(&mut items, tree.get(path), path)?;
    append_files(&mut items, tree.below(&path.names()))?;
    Ok(Manifest {
        path: path.copy()?,
        items: Items::from_vec(items),
    })
}

// Appends the file at the path, where what stands there is one.
fn append_top(
    items: &mut Vec<Item>,
    top: Option<&Entry<Held>>,
    path: &Path,
) -> Result<(), OutOfMemory>
    ensures { OnOk result (items.new.items ≡ items.old.items ++ top_items path.now (option_copied top.entry)) }
{
    match top {
        None => Ok(()),
        Some(entry) => append_file(items, path, entry),
    }
}

// Appends the files among the entries.
fn append_files(items: &mut Vec<Item>, pairs: &[(Path, Entry<Held>)]) -> Result<(), OutOfMemory>
    ensures { OnOk result (items.new.items ≡ items.old.items ++ file_items pairs.now) }
{
    'pairs: for (path, entry) in pairs {
        append_file(items, path, entry)?;
    }
    Ok(())
}

// Appends an entry that is a file.
fn append_file(items: &mut Vec<Item>, path: &Path, entry: &Entry<Held>) -> Result<(), OutOfMemory>
    ensures { OnOk result (items.new.items ≡ items.old.items ++ file_item path.now entry.now) }
{
    match entry {
        Entry::File(_, held) => {
            let digest = held.stamp().digest;
            let path = path.copy()?;
            items.push(Item { path, digest })?;
            Ok(())
        }
        Entry::Dir(_) | Entry::Opaque(_) | Entry::Link(_, _) | Entry::Hide => Ok(()),
    }
}
