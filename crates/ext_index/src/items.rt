// Whether a manifest says what a tree has at and below its path.
ghost use Rattle.std.specs.Prelude.{◌≡◌, ◌↔◌, ◌∷◌, ◌++◌, ℕ, List, IsTrue, MatchOption, Some};
ghost use Rattle.ext_attributes.specs.Attributes.{OfFile};
ghost use Rattle.ext_host.specs.Valid.{HasItems, IsManifest};
ghost use Rattle.ext_host.specs.declared.manifest.Item.{Item};
ghost use Rattle.ext_host.specs.Held.{HeldFile};
ghost use Rattle.ext_tree.specs.Tree.{lookup};
ghost use Rattle.ext_tree.specs.declared.entry.Entry.TheVariants.{File};
ghost use Rattle.ext_index.specs.Items.{item_of, items_of};

use ext_host::{Held, Item, Manifest};
use ext_text::Path;
use ext_tree::{Entry, Tree};

/// Whether the items of a manifest are the files of a tree at and below its path, each with its digest.
pub(crate) fn has_items(tree: &Tree<Held>, manifest: &Manifest) -> bool
    requires { IsManifest manifest.now }
    ensures { IsTrue result ↔ HasItems (lookup tree.now) manifest.now }
{
    let items = manifest.items.as_slice();
    let below = tree.below(&manifest.path.names());
    match file_at(tree, &manifest.path) {
        Some(held) => are_file_and_items(items, &manifest.path, held, below),
        None => are_items(items, below),
    }
}

// The file at a path; `None` exactly where none stands.
fn file_at<'a>(tree: &'a Tree<Held>, path: &Path) -> Option<&'a Held>
    ensures { MatchOption result
        ((attributes : OfFile) (held : HeldFile) → ¬ (lookup tree.now path.now ≡ Some (File attributes held)))
        (λ held. (attributes : OfFile) × (lookup tree.now path.now ≡ Some (File attributes held.now))) }
{
    match tree.get(path)? {
        Entry::File(_, held) => Some(held),
        Entry::Dir(_) | Entry::Opaque(_) | Entry::Link(_, _) | Entry::Hide => None,
    }
}

// Whether the items are that of a file and those of the entries after it.
fn are_file_and_items(
    items: &[Item],
    path: &Path,
    held: &Held,
    entries: &[(Path, Entry<Held>)],
) -> bool
    ensures { IsTrue result ↔ (items.now ≡ (record { path = path.now; digest = held.now.stamp.digest }) ∷ items_of entries.now) }
{
    match after_file(items, path, held) {
        None => false,
        Some(rest) => are_items(rest, entries),
    }
}

// Whether the item is that of a file.
fn is_item(item: &Item, path: &Path, held: &Held) -> bool
    ensures { IsTrue result ↔ (item.now ≡ record { path = path.now; digest = held.now.stamp.digest }) }
{
    item.path.cmp(path).is_eq() && item.digest == held.stamp().digest
}

// Whether the items are those of the entries.
fn are_items(items: &[Item], entries: &[(Path, Entry<Held>)]) -> bool
    ensures { IsTrue result ↔ (items.now ≡ items_of entries.now) }
{
    let mut rest = items;
    'entries: for entry in entries {
        match after_item(rest, entry) {
            None => return false,
            Some(after) => rest = after,
        }
    }
    rest.is_empty()
}

// The items after that of an entry, if it is a file; `None` exactly where they begin otherwise.
fn after_item<'a>(items: &'a [Item], entry: &(Path, Entry<Held>)) -> Option<&'a [Item]>
    ensures { MatchOption result ((rest : List Item) → ¬ (items.now ≡ item_of entry.now ++ rest))
        (λ rest. items.now ≡ item_of entry.now ++ rest.now) }
{
    match &entry.1 {
        Entry::File(_, held) => after_file(items, &entry.0, held),
        Entry::Dir(_) | Entry::Opaque(_) | Entry::Link(_, _) | Entry::Hide => Some(items),
    }
}

// The items after that of a file.
fn after_file<'a>(items: &'a [Item], path: &Path, held: &Held) -> Option<&'a [Item]>
    ensures { MatchOption result
        ((rest : List Item) → ¬ (items.now ≡ (record { path = path.now; digest = held.now.stamp.digest }) ∷ rest))
        (λ rest. items.now ≡ (record { path = path.now; digest = held.now.stamp.digest }) ∷ rest.now) }
{
    match items {
        [item, rest @ ..] if is_item(item, path, held) => Some(rest),
        _ => None,
    }
}
