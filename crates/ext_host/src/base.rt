// The base of a host: what is seen, with what lies under it in the place of the merged hierarchies.
ghost use Rattle.std.specs.Prelude.{◌≡◌, ◌+◌, ◌≤◌, ◌++◌, length, not, IfOk, IsTrue, OnOk};
ghost use Rattle.std.specs.FinMap.{is_sorted};
ghost use Rattle.std.specs.FinMap.Entries.{where_key};
ghost use Rattle.std.specs.List.Sorted.{IsPermutation, IsSorted};
ghost use Rattle.ext_lines.specs.ByteOrder.{bytes_cmp};
ghost use Rattle.ext_text.specs.Path.{path_cmp};
ghost use Rattle.ext_tree.specs.Tree.{most_entries};
ghost use Rattle.ext_host.specs.Base.{base_entries, comes_after, comes_before, first_name_cmp, stands_at};
ghost use Rattle.ext_host.specs.Host.{IsBase, hierarchies_in, merged_hierarchies, present, where_merged};

use crate::held::Held;
use crate::host::Host;
use ext_text::{Name, Names, OutOfMemory, Path};
use ext_tree::{Entry, Tree, append_pairs};
use std::alloc::Global;
use std::cmp::Ordering;

type Pair = (Path, Entry<Held>);

impl Host {
    /// The host without its merged extensions: at and below the hierarchies of the merged classes what lies under the view,
    /// and elsewhere what is seen. What is seen and what lies under it have at most 262,144 entries together.
    ///
    /// # Errors
    /// `OutOfMemory` alone.
    pub fn base(&self) -> Result<Tree<Held>, OutOfMemory>
        requires { length self.now.root + length self.now.lower ≤ most_entries }
        ensures { IfOk result (IsBase self.now) }
    {
        let alloc = self.root.allocator();
        let names = self.merged_names(alloc)?;
        let pairs = base_pairs(
            alloc,
            names.as_slice(),
            self.root.pairs(),
            self.lower.pairs(),
        )?;
        Ok(Tree::from_pairs(pairs))
    }

    // The hierarchies of the merged classes, in the order of their bytes.
    fn merged_names(&self, alloc: Global) -> Result<Vec<Name>, OutOfMemory>
        ensures same { IfOk result (λ names. IsPermutation (merged_hierarchies (hierarchies_in self.now) (present self.now)) names.items) }
        ensures sorted { IfOk result (λ names. IsSorted bytes_cmp names.items) }
    {
        let mut names = Vec::new(alloc);
        append_merged(&mut names, &self.sysext, &self.sysext_hier)?;
        append_merged(&mut names, &self.confext, &self.confext_hier)?;
        names.sort()?;
        Ok(names)
    }
}

// Adds copies of the hierarchies, where their class is merged.
fn append_merged(
    names: &mut Vec<Name>,
    merged: &Option<Names>,
    hierarchies: &Names,
) -> Result<(), OutOfMemory>
    ensures { OnOk result (names.new.items ≡ names.old.items ++ where_merged merged.now hierarchies.now) }
{
    match merged {
        None => Ok(()),
        Some(_) => append_names(names, hierarchies.as_slice()),
    }
}

// Adds copies of names.
fn append_names(copies: &mut Vec<Name>, names: &[Name]) -> Result<(), OutOfMemory>
    ensures { OnOk result (copies.new.items ≡ copies.old.items ++ names.now) }
{
    for name in names {
        copies.push(name.copy()?)?;
    }
    Ok(())
}

// Copies of the base's entries, in memory for just so many.
fn base_pairs(
    alloc: Global,
    names: &[Name],
    root: &[Pair],
    lower: &[Pair],
) -> Result<Vec<Pair>, OutOfMemory>
    requires root { IsTrue (is_sorted path_cmp root.now) }
    requires lower { IsTrue (is_sorted path_cmp lower.now) }
    requires few { length root.now + length lower.now ≤ most_entries }
    ensures { IfOk result (λ pairs. pairs.items ≡ base_entries names.now root.now lower.now) }
{
    let mut pairs = Vec::with_capacity(alloc, count_base(names, root, lower))?;
    append_base(alloc, &mut pairs, names, root, lower)?;
    Ok(pairs)
}

// How many entries the base has.
fn count_base(names: &[Name], root: &[Pair], lower: &[Pair]) -> usize
    requires root { IsTrue (is_sorted path_cmp root.now) }
    requires lower { IsTrue (is_sorted path_cmp lower.now) }
    requires few { length root.now + length lower.now ≤ most_entries }
    ensures count { result ≡ length (base_entries names.now root.now lower.now) }
    ensures few { result ≤ length root.now + length lower.now }
{
    match names {
        [] => root.len(),
        [name, more @ ..] => {
            let rest = count_base(more, after(root, name), after(lower, name));
            before(root, name).len() + at_name(lower, name).len() + rest
        }
    }
}

// Adds copies of the base's entries.
fn append_base(
    alloc: Global,
    pairs: &mut Vec<Pair>,
    names: &[Name],
    root: &[Pair],
    lower: &[Pair],
) -> Result<(), OutOfMemory>
    requires root { IsTrue (is_sorted path_cmp root.now) }
    requires lower { IsTrue (is_sorted path_cmp lower.now) }
    ensures { OnOk result (pairs.new.items ≡ pairs.old.items ++ base_entries names.now root.now lower.now) }
{
    match names {
        [] => append_pairs(alloc, pairs, root),
        [name, more @ ..] => {
            append_pairs(alloc, pairs, before(root, name))?;
            append_pairs(alloc, pairs, at_name(lower, name))?;
            append_base(alloc, pairs, more, after(root, name), after(lower, name))
        }
    }
}

// The entries that come before the name.
fn before<'a>(pairs: &'a [Pair], name: &Name) -> &'a [Pair]
    requires { IsTrue (is_sorted path_cmp pairs.now) }
    ensures { result.now ≡ where_key path_cmp (comes_before name.now) pairs.now }
{
    let count = pairs.partition_point(|pair| comes_before(name, pair));
    let (before, _rest) = pairs.split_at(count);
    before
}

// The entries at and below the name.
fn at_name<'a>(pairs: &'a [Pair], name: &Name) -> &'a [Pair]
    requires { IsTrue (is_sorted path_cmp pairs.now) }
    ensures { result.now ≡ where_key path_cmp (stands_at name.now) pairs.now }
{
    let rest = not_before(pairs, name);
    let count = rest.partition_point(|pair| !comes_after(name, pair));
    let (at_name, _after) = rest.split_at(count);
    at_name
}

// The entries that do not come before the name.
fn not_before<'a>(pairs: &'a [Pair], name: &Name) -> &'a [Pair]
    requires { IsTrue (is_sorted path_cmp pairs.now) }
    ensures same { result.now ≡ where_key path_cmp (λ path. not (comes_before name.now path)) pairs.now }
    ensures sorted { IsTrue (is_sorted path_cmp result.now) }
{
    let count = pairs.partition_point(|pair| comes_before(name, pair));
    let (_before, rest) = pairs.split_at(count);
    rest
}

// The entries that come after the name and all that is below it.
fn after<'a>(pairs: &'a [Pair], name: &Name) -> &'a [Pair]
    requires { IsTrue (is_sorted path_cmp pairs.now) }
    ensures same { result.now ≡ where_key path_cmp (comes_after name.now) pairs.now }
    ensures sorted { IsTrue (is_sorted path_cmp result.now) }
    ensures fewer { length result.now ≤ length pairs.now }
{
    let count = pairs.partition_point(|pair| !comes_after(name, pair));
    let (_before, after) = pairs.split_at(count);
    after
}

// Whether the entry comes before the name.
fn comes_before(name: &Name, pair: &Pair) -> bool
    ensures { result ≡ comes_before name.now pair.now.0 }
{
    first_name_cmp(name, pair).is_gt()
}

// Whether the entry comes after the name and all that is below it.
fn comes_after(name: &Name, pair: &Pair) -> bool
    ensures { result ≡ comes_after name.now pair.now.0 }
{
    first_name_cmp(name, pair).is_lt()
}

// How the name stands to the first one of the entry's path.
fn first_name_cmp(name: &Name, pair: &Pair) -> Ordering
    ensures { result ≡ first_name_cmp name.now pair.now.0 }
{
    match pair.0.names().split_first() {
        None => Ordering::Greater,
        Some((first, _below)) => name.bytes().cmp(first),
    }
}
