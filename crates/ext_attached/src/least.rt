// The least path that is in the way.
ghost use Rattle.std.specs.Prelude.{◌≡◌, is_some};
ghost use Rattle.std.specs.List.{find};
ghost use Rattle.std.specs.Option.{option_copied};
ghost use Rattle.ext_tree.specs.Graft.{is_non_directory_at};
ghost use Rattle.ext_tree.specs.Tree.{lookup};
ghost use Rattle.ext_host.specs.ReadOnly.{is_read_only};
ghost use Rattle.ext_attached.specs.Least.{FindsLeast};

use ext_host::Host;
use ext_text::{Path, SortedPaths};
use ext_tree::{Entry, Tree};

/// The least of the paths that is in, at or above a merged hierarchy. It takes no memory.
pub fn least_locked<'a>(host: &Host, paths: &'a SortedPaths) -> Option<&'a Path>
    ensures { FindsLeast (is_read_only host.now) paths.now (option_copied result) }
{
    first_locked(host, paths.as_slice())
}

// The first of the paths that a merge locks.
fn first_locked<'a>(host: &Host, paths: &'a [Path]) -> Option<&'a Path>
    ensures { option_copied result ≡ find (is_read_only host.now) paths.now }
{
    paths.iter().find(|path| host.locks(path))
}

/// The least of the paths at which something stands, be it a whiteout. It takes no memory.
pub fn least_standing<'a, C>(tree: &Tree<C>, paths: &'a SortedPaths) -> Option<&'a Path>
    ensures { FindsLeast (λ path. is_some (lookup tree.now path)) paths.now (option_copied result) }
{
    first_standing(tree, paths.as_slice())
}

// The first of the paths at which something stands.
fn first_standing<'a, C>(tree: &Tree<C>, paths: &'a [Path]) -> Option<&'a Path>
    ensures { option_copied result ≡ find (λ path. is_some (lookup tree.now path)) paths.now }
{
    paths.iter().find(|path| tree.get(path).is_some())
}

/// The least of the paths at which something stands that is no directory. It takes no memory.
pub fn least_blocking<'a, C>(tree: &Tree<C>, paths: &'a SortedPaths) -> Option<&'a Path>
    ensures { FindsLeast (λ path. is_non_directory_at (lookup tree.now path)) paths.now (option_copied result) }
{
    first_blocking(tree, paths.as_slice())
}

// The first of the paths at which something stands that is no directory.
fn first_blocking<'a, C>(tree: &Tree<C>, paths: &'a [Path]) -> Option<&'a Path>
    ensures { option_copied result ≡ find (λ path. is_non_directory_at (lookup tree.now path)) paths.now }
{
    paths.iter().find(|path| is_non_directory(tree.get(path)))
}

// Whether something stands there that is no directory.
fn is_non_directory<C>(entry: Option<&Entry<C>>) -> bool
    ensures { result ≡ is_non_directory_at (option_copied entry.entry) }
{
    match entry {
        None => false,
        Some(entry) => !entry.is_directory(),
    }
}
