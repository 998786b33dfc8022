ghost use Rattle.std.specs.Prelude.{◌≡◌, ℕ, Bool, List, slice_get};
ghost use Rattle.std.specs.List.{list_any};
ghost use Rattle.std.specs.List.Sorted.{IsStrictlySortedBy};
ghost use Rattle.std.specs.Option.{option_copied};
ghost use Rattle.std.specs.Ordering.{is_lt};
ghost use Rattle.ext_text.specs.Path.{path_cmp};
ghost use Rattle.ext_text.specs.SortedPaths.{covers, first_from, has_below, is_among, meets};

use crate::path::Path;
use crate::path_ref::PathRef;
use std::marker::Model;

/// Paths in path order, each once. Contracts see them as the list of the paths.
#[derive(Drop)]
pub struct SortedPaths {
    paths: Vec<Path>,
}

impl Model for SortedPaths {
    ghost use Rattle.std.specs.Prelude.{ℕ, List};
    ghost use Rattle.std.specs.List.Sorted.{IsStrictlySortedBy};
    ghost use Rattle.ext_text.specs.Path.{path_cmp};

    ghost Value = { List (List (List ℕ)) };

    ghost view = { λ p. p.paths.items };

    ghost invariant = { λ p. IsStrictlySortedBy path_cmp p.paths.items };
}

impl SortedPaths {
    /// These paths, each once, in path order. It takes no memory.
    pub fn of(paths: Vec<Path>) -> SortedPaths
        ensures sorted { IsStrictlySortedBy path_cmp result }
        // A test that some of these passes, some of those passes, and the other way round: no path comes or goes.
        ensures same { (test : List (List ℕ) → Bool) → list_any test result ≡ list_any test paths.items }
    {
        SortedPaths {
            paths: in_order(paths),
        }
    }

    /// The paths, the least first.
    pub fn as_slice(&self) -> &[Path]
        ensures same { result.now ≡ self.now }
        ensures sorted { IsStrictlySortedBy path_cmp self.now }
    {
        self.paths.as_slice()
    }

    /// The paths, the least first, which are not copied.
    pub fn into_vec(self) -> Vec<Path>
        ensures same { result.items ≡ self }
        ensures sorted { IsStrictlySortedBy path_cmp result.items }
    {
        self.paths
    }

    /// Whether the path of these names is one of them: one search by halves.
    pub fn has(&self, names: &PathRef) -> bool
        ensures { result ≡ is_among self.now names.now }
    {
        is_among(self.as_slice(), names)
    }

    /// Whether the path of these names is one of them or lies below one: a search for each of its prefixes.
    pub fn covers(&self, names: &PathRef) -> bool
        ensures { result ≡ covers self.now names.now }
    {
        covers(self.as_slice(), names)
    }

    /// Whether one of them is the path of these names or lies below it: one search.
    pub fn has_below(&self, names: &PathRef) -> bool
        ensures { result ≡ has_below self.now names.now }
    {
        has_below(self.as_slice(), names)
    }

    /// Whether one of them is related to the path of these names: it is the path, or one of the two lies below the other.
    pub fn meets(&self, names: &PathRef) -> bool
        ensures { result ≡ meets self.now names.now }
    {
        meets(self.as_slice(), names)
    }
}

// The paths in path order, each once.
fn in_order(paths: Vec<Path>) -> Vec<Path>
    ensures sorted { IsStrictlySortedBy path_cmp result.items }
    ensures same { (test : List (List ℕ) → Bool) → list_any test result.items ≡ list_any test paths.items }
{
    let mut sorted = paths;
    sorted.sort_unstable();
    sorted.dedup();
    sorted
}

// Whether the path of the names is one of the paths.
fn is_among(paths: &[Path], names: &PathRef) -> bool
    requires { IsStrictlySortedBy path_cmp paths.now }
    ensures { result ≡ is_among paths.now names.now }
{
    match first_from(paths, names) {
        None => false,
        Some(path) => names.cmp(&path.names()).is_eq(),
    }
}

// Whether the path of the names is one of the paths or lies below one.
fn covers(paths: &[Path], names: &PathRef) -> bool
    requires { IsStrictlySortedBy path_cmp paths.now }
    ensures { result ≡ covers paths.now names.now }
{
    'prefixes: for count in 0..names.depth() {
        if is_among(paths, &names.prefix(count)) {
            return true;
        }
    }
    is_among(paths, names)
}

// Whether one of the paths is the path of the names or lies below it.
fn has_below(paths: &[Path], names: &PathRef) -> bool
    requires { IsStrictlySortedBy path_cmp paths.now }
    ensures { result ≡ has_below paths.now names.now }
{
    match first_from(paths, names) {
        None => false,
        Some(path) => path.names().starts_with(names),
    }
}

// Whether one of the paths is related to the path of the names.
fn meets(paths: &[Path], names: &PathRef) -> bool
    requires { IsStrictlySortedBy path_cmp paths.now }
    ensures { result ≡ meets paths.now names.now }
{
    let covered = covers(paths, names);
    covered || has_below(paths, names)
}

// The first of the paths that does not come before the path of the names.
fn first_from<'a>(paths: &'a [Path], names: &PathRef) -> Option<&'a Path>
    requires { IsStrictlySortedBy path_cmp paths.now }
    ensures { option_copied result ≡ first_from names.now paths.now }
{
    let index = paths.partition_point(|path| comes_before(path, names));
    path_at(paths, index)
}

// The path at an index.
fn path_at(paths: &[Path], index: usize) -> Option<&Path>
    ensures { option_copied result ≡ slice_get paths.now index }
{
    paths.get(index)
}

// Whether a path comes before the path of the names.
fn comes_before(path: &Path, names: &PathRef) -> bool
    ensures { result ≡ is_lt (path_cmp path.now names.now) }
{
    path.names().cmp(names).is_lt()
}
