ghost use Rattle.std.specs.Prelude.{◌≡◌, ◌-◌, ◌↔◌, [], not, length, take, slice_get, IsTrue, IfOk};
ghost use Rattle.std.specs.List.{filter};
ghost use Rattle.std.specs.List.Sorted.{IsStrictlySortedBy};
ghost use Rattle.std.specs.Option.{option_copied};
ghost use Rattle.ext_vers.specs.Version.{order_of};
ghost use Rattle.ext_versions.specs.Versions.{AreVersions, IsPlaceOf, each_has_version, has_version};

use crate::search::{has_version, place_of};
use ext_lines::{OutOfMemory, allocated};
use ext_vers::Version;
use std::alloc::Global;
use std::marker::Model;

/// Versions in ascending order, each once: in the order of versions, equal ones in that of their bytes. Contracts see them as
/// the list of the versions.
#[derive(Drop)]
pub struct Versions {
    items: Vec<Version>,
}

impl Model for Versions {
    ghost use Rattle.std.specs.Prelude.{ℕ, List};
    ghost use Rattle.std.specs.List.Sorted.{IsStrictlySortedBy};
    ghost use Rattle.ext_vers.specs.Version.{order_of};

    ghost Value = { List (List ℕ) };

    ghost view = { λ v. v.items.items };

    ghost invariant = { λ v. IsStrictlySortedBy order_of v.items.items };
}

impl Versions {
    /// No version.
    pub fn new(alloc: Global) -> Versions
        ensures { result ≡ [] }
    {
        Versions {
            items: Vec::new(alloc),
        }
    }

    /// These versions, each once, ascending. It takes no memory.
    pub fn of(versions: Vec<Version>) -> Versions
        ensures { AreVersions versions.items result }
    {
        Versions {
            items: in_order(versions),
        }
    }

    /// The versions, the least first, which are not copied.
    pub fn as_slice(&self) -> &[Version]
        ensures same { result.now ≡ self.now }
        ensures sorted { IsStrictlySortedBy order_of self.now }
    {
        self.items.as_slice()
    }

    /// The versions, the least first, which are not copied.
    pub fn into_vec(self) -> Vec<Version>
        ensures same { result.items ≡ self }
        ensures sorted { IsStrictlySortedBy order_of result.items }
    {
        self.items
    }

    /// How many versions there are.
    pub fn len(&self) -> usize
        ensures { result ≡ length self.now }
    {
        self.items.len()
    }

    /// Whether there is none.
    pub fn is_empty(&self) -> bool
        ensures { IsTrue result ↔ (self.now ≡ []) }
    {
        self.items.is_empty()
    }

    /// The greatest version, which is the last; `None` where there is none.
    pub fn last(&self) -> Option<&Version>
        ensures { option_copied result ≡ slice_get self.now (length self.now - 1) }
    {
        self.items.last()
    }

    /// Whether the version of these bytes is one of them: one search by halves.
    pub fn has(&self, version: &[u8]) -> bool
        ensures { result ≡ has_version self.now version.now }
    {
        has_version(self.as_slice(), version)
    }

    /// The place of the version of these bytes, counted from 0; `None` exactly where it is none of them: one search by halves.
    pub fn place_of(&self, version: &[u8]) -> Option<usize>
        ensures { IsPlaceOf self.now version.now result }
    {
        place_of(self.as_slice(), version)
    }

    /// An equal list.
    ///
    /// # Errors
    /// `OutOfMemory` alone.
    pub fn copy(&self, alloc: Global) -> Result<Versions, OutOfMemory>
        ensures { IfOk result (λ copy. copy ≡ self.now) }
    {
        let items = copies_of(alloc, self.as_slice())?;
        Ok(Versions { items })
    }

    /// Those that are none of the others.
    pub fn without(self, others: &Versions) -> Versions
        ensures { result ≡ filter (λ v. not (has_version others.now v)) self }
    {
        Versions {
            items: without(self.items, others),
        }
    }

    // Those that each of the lists has.
    pub(crate) fn common_with(self, lists: &[Versions]) -> Versions
        ensures common { result ≡ filter (each_has_version lists.now) self }
        ensures sorted { IsStrictlySortedBy order_of self }
    {
        Versions {
            items: common_with(self.items, lists),
        }
    }

    /// So many of them from the least on; all, where there are no more.
    pub fn first(self, count: usize) -> Versions
        ensures { result ≡ take count self }
    {
        Versions {
            items: first(self.items, count),
        }
    }
}

// The versions, each once, ascending.
fn in_order(versions: Vec<Version>) -> Vec<Version>
    ensures { AreVersions versions.items result.items }
{
    let mut sorted = versions;
    sorted.sort_unstable();
    sorted.dedup();
    sorted
}

// Equal versions.
fn copies_of(alloc: Global, versions: &[Version]) -> Result<Vec<Version>, OutOfMemory>
    ensures { IfOk result (λ copies. copies.items ≡ versions.now) }
{
    let mut copies = allocated(Vec::with_capacity(alloc, versions.len()))?;
    for version in versions {
        allocated(copies.push(version.copy()?))?;
    }
    Ok(copies)
}

// The versions that are none of the others.
fn without(versions: Vec<Version>, others: &Versions) -> Vec<Version>
    ensures { result.items ≡ filter (λ v. not (has_version others.now v)) versions.items }
{
    let mut rest = versions;
    rest.retain(|version| !others.has(version.bytes()));
    rest
}

// The versions that each of the lists has.
fn common_with(versions: Vec<Version>, lists: &[Versions]) -> Vec<Version>
    ensures { result.items ≡ filter (each_has_version lists.now) versions.items }
{
    let mut common = versions;
    common.retain(|version| each_has_version(lists, version));
    common
}

// Whether each of the lists has the version. The first that lacks it ends the search.
fn each_has_version(lists: &[Versions], version: &Version) -> bool
    ensures { result ≡ each_has_version lists.now version.now }
{
    lists.iter().all(|versions| versions.has(version.bytes()))
}

// So many of the first versions.
fn first(versions: Vec<Version>, count: usize) -> Vec<Version>
    ensures { result.items ≡ take count versions.items }
{
    let mut first = versions;
    first.truncate(count);
    first
}
