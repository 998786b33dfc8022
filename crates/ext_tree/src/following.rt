// Which path may follow the entries of a tree, by a look at the last of them alone.
ghost use Rattle.std.specs.Prelude.{◌≡◌, [], ◌∷◌, ◌++◌, ◌↔◌, IsTrue};
ghost use Rattle.ext_tree.specs.Tree.{IsTree};
ghost use Rattle.ext_tree.specs.Following.{name_comes_after, stands_after};
ghost use Rattle.ext_tree.specs.declared.entry.Entry.{Entry};

use crate::entry::Entry;
use ext_text::{Path, PathRef};

/// Whether the entries with one more at this path are a tree, whatever stands there.
pub fn may_follow<C>(entries: &[(Path, Entry<C>)], path: &Path) -> bool
    requires { IsTree entries.now }
    ensures { (e : Entry C) → (IsTrue result ↔ IsTree (entries.now ++ (path.now, e) ∷ [])) }
{
    let names = path.names();
    match entries {
        [] => names.depth() == 1,
        [_prefix @ .., last] => stands_after(last, path),
    }
}

// Whether the path may follow the last entry. The names of its parent are compared once, with the last path's: after them
// the last path has a smaller name, or nothing, and is then the parent itself.
fn stands_after<C>(last: &(Path, Entry<C>), path: &Path) -> bool
    ensures { result ≡ stands_after last.now path.now }
{
    let (last_path, entry) = last;
    match path.names().split_last() {
        None => false,
        Some((directory, name)) => match last_path.names().after(&directory) {
            None => false,
            Some(rest) => comes_after(&rest, entry, name),
        },
    }
}

// Whether a name comes after the last entry, which has the rest's names below the same directory or is the directory.
fn comes_after<C>(rest: &PathRef, entry: &Entry<C>, name: &[u8]) -> bool
    ensures { result ≡ name_comes_after rest.now entry.now name.now }
{
    match rest.split_first() {
        None => entry.is_directory(),
        Some((last, _below)) => last.cmp(name).is_lt(),
    }
}
