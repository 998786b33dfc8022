// Equal lists and hosts, and hosts with other trees.
ghost use Rattle.std.specs.Prelude.{◌≡◌, IfOk};

use crate::attachment::Attachment;
use crate::held::Held;
use crate::host::Host;
use crate::manifest::{Item, Manifest};
use crate::past::Past;
use ext_text::{ListOf, Name, Names, OutOfMemory, Path};
use ext_tree::Tree;
use std::alloc::Global;

/// What a host has lists of.
pub trait Listed: Sized {
    /// An equal value.
    ///
    /// # Errors
    /// `OutOfMemory` alone.
    fn copy_into(&self, alloc: Global) -> Result<Self, OutOfMemory>
        ensures { IfOk result (λ copy. copy ≡ self.now) };
}

impl Listed for Name {
    fn copy_into(&self, _alloc: Global) -> Result<Name, OutOfMemory> {
        self.copy()
    }
}

impl Listed for Path {
    fn copy_into(&self, _alloc: Global) -> Result<Path, OutOfMemory> {
        self.copy()
    }
}

impl Listed for Item {
    fn copy_into(&self, _alloc: Global) -> Result<Item, OutOfMemory> {
        let path = self.path.copy()?;
        Ok(Item {
            path,
            digest: self.digest,
        })
    }
}

impl Listed for Manifest {
    fn copy_into(&self, alloc: Global) -> Result<Manifest, OutOfMemory> {
        let path = self.path.copy()?;
        let items = copy_of_list(alloc, &self.items)?;
        Ok(Manifest { path, items })
    }
}

impl Listed for Attachment {
    fn copy_into(&self, alloc: Global) -> Result<Attachment, OutOfMemory> {
        let name = self.name.copy()?;
        let place = self.place.copy()?;
        let added = copy_of_list(alloc, &self.added)?;
        Ok(Attachment {
            name,
            place,
            runtime: self.runtime,
            added,
        })
    }
}

impl Listed for Past {
    fn copy_into(&self, alloc: Global) -> Result<Past, OutOfMemory> {
        let root = self.root.copy()?;
        let lower = self.lower.copy()?;
        let sysext = copy_of_merged(alloc, &self.sysext)?;
        let confext = copy_of_merged(alloc, &self.confext)?;
        let attached = copy_of_list(alloc, &self.attached)?;
        let kept = copy_of_list(alloc, &self.kept)?;
        Ok(Past {
            generation: self.generation,
            root,
            lower,
            sysext,
            confext,
            attached,
            kept,
        })
    }
}

/// An equal list.
///
/// # Errors
/// `OutOfMemory` alone.
pub fn copy_of_list<T: Listed + Drop>(
    alloc: Global,
    list: &ListOf<T>,
) -> Result<ListOf<T>, OutOfMemory>
    ensures { IfOk result (λ copy. copy ≡ list.now) }
{
    let copies = copies_of(alloc, list.as_slice())?;
    Ok(ListOf::from_vec(copies))
}

/// Equal names, or none where there are none.
///
/// # Errors
/// `OutOfMemory` alone.
pub fn copy_of_merged(alloc: Global, names: &Option<Names>) -> Result<Option<Names>, OutOfMemory>
    ensures { IfOk result (λ copy. copy ≡ names.now) }
{
    match names {
        None => Ok(None),
        Some(names) => Ok(Some(copy_of_list(alloc, names)?)),
    }
}

impl Host {
    /// An equal host.
    ///
    /// # Errors
    /// `OutOfMemory` alone.
    pub fn copy(&self) -> Result<Host, OutOfMemory>
        ensures { IfOk result (λ copy. copy ≡ self.now) }
    {
        let alloc = self.root.allocator();
        let root = self.root.copy()?;
        let lower = self.lower.copy()?;
        let sysext = copy_of_merged(alloc, &self.sysext)?;
        let confext = copy_of_merged(alloc, &self.confext)?;
        self.with_trees(root, lower, sysext, confext)
    }

    /// The host with these trees, and with these names for its merged extensions; all else is copied.
    ///
    /// # Errors
    /// `OutOfMemory` alone.
    pub fn with_trees(
        &self,
        root: Tree<Held>,
        lower: Tree<Held>,
        sysext: Option<Names>,
        confext: Option<Names>,
    ) -> Result<Host, OutOfMemory>
        ensures { IfOk result (λ next. next ≡ record self.now { root = root; lower = lower; sysext = sysext; confext = confext }) }
    {
        let alloc = root.allocator();
        let attached = copy_of_list(alloc, &self.attached)?;
        let kept = copy_of_list(alloc, &self.kept)?;
        let sysext_hier = copy_of_list(alloc, &self.sysext_hier)?;
        let confext_hier = copy_of_list(alloc, &self.confext_hier)?;
        let past = copy_of_list(alloc, &self.past)?;
        Ok(Host {
            arch: self.arch,
            scope: self.scope,
            root,
            lower,
            sysext,
            confext,
            attached,
            kept,
            sysext_hier,
            confext_hier,
            past,
        })
    }
}

// Copies of a list's items.
fn copies_of<T: Listed + Drop>(alloc: Global, items: &[T]) -> Result<Vec<T>, OutOfMemory>
    ensures { IfOk result (λ copies. copies.items ≡ items.now) }
{
    let mut copies = Vec::with_capacity(alloc, items.len())?;
    for item in items {
        copies.push(item.copy_into(alloc)?)?;
    }
    Ok(copies)
}
