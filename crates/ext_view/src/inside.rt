// What entries stand at and below some hierarchies.
ghost use Rattle.std.specs.Prelude.{◌≡◌, ◌++◌, ◌∷◌, [], IfOk, OnOk, map};
ghost use Rattle.ext_host.specs.Host.{is_in};
ghost use Rattle.ext_view.specs.Inside.{inside, seen_below};

use ext_host::{Held, is_in};
use ext_text::{Name, OutOfMemory, Path};
use ext_tree::{Entry, Held1, Tree};
use std::alloc::Global;

pub(crate) type Pair = (Path, Entry<Held>);

/// The entries of the tree at and below the hierarchies, which are not copied.
pub fn entries_inside(tree: Tree<Held>, hierarchies: &[Name]) -> Tree<Held>
    ensures { result ≡ inside hierarchies.now tree }
{
    let mut pairs = tree.into_pairs();
    pairs.retain(|pair| is_inside(hierarchies, pair));
    Tree::from_pairs(pairs)
}

// Whether the entry is at or below one of the hierarchies.
fn is_inside(hierarchies: &[Name], pair: &Pair) -> bool
    ensures { result ≡ is_in hierarchies.now pair.now.0 }
{
    is_in(hierarchies, &pair.0.names())
}

// Copies of those entries that are at or below the hierarchies once so many first names are taken off their paths.
pub(crate) fn copies_inside(
    alloc: Global,
    hierarchies: &[Name],
    depth: usize,
    pairs: &[Pair],
) -> Result<Vec<Pair>, OutOfMemory>
    ensures { IfOk result (λ copies. copies.items ≡ inside hierarchies.now (map (seen_below depth) pairs.now)) }
{
    let mut copies = Vec::new(alloc);
    for pair in pairs {
        push_inside(alloc, &mut copies, hierarchies, depth, pair)?;
    }
    Ok(copies)
}

// Adds a copy of the entry, where it is at or below the hierarchies once so many first names are taken off its path.
fn push_inside(
    alloc: Global,
    copies: &mut Vec<Pair>,
    hierarchies: &[Name],
    depth: usize,
    pair: &Pair,
) -> Result<(), OutOfMemory>
    ensures { OnOk result (copies.new.items ≡ copies.old.items ++ inside hierarchies.now (map (seen_below depth) (pair.now ∷ []))) }
{
    if is_in(hierarchies, &pair.0.names().rest(depth)) {
        copies.push(copy_below(alloc, pair, depth)?)?;
    }
    Ok(())
}

// A copy of the entry, with so many first names taken off its path.
pub(crate) fn copy_below(alloc: Global, pair: &Pair, depth: usize) -> Result<Pair, OutOfMemory>
    ensures { IfOk result (λ copy. copy ≡ seen_below depth pair.now) }
{
    let path = pair.0.rest(depth)?;
    let entry = pair.1.copy(alloc)?;
    Ok((path, entry))
}
