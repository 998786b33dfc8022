// Entries at and below some hierarchies in the place of those that a tree has there.
ghost use Rattle.std.specs.Prelude.{◌≡◌, ◌++◌, ◌∷◌, [], IfOk, IsTrue, OnOk};
ghost use Rattle.std.specs.FinMap.{is_sorted};
ghost use Rattle.std.specs.List.{AllByRecursion};
ghost use Rattle.ext_text.specs.Path.{path_cmp};
ghost use Rattle.ext_host.specs.Host.{is_in};
ghost use Rattle.ext_view.specs.Inside.{outside};
ghost use Rattle.ext_view.specs.Replaced.{replaced};

use crate::inside::{Pair, copy_below};
use ext_host::is_in;
use ext_text::{Name, OutOfMemory};
use ext_tree::joined;
use std::alloc::Global;

// Copies of what the tree has outside the hierarchies, and the new entries in between, which are moved. One pass over both.
pub(crate) fn replaced(
    alloc: Global,
    hierarchies: &[Name],
    old: &[Pair],
    new: Vec<Pair>,
) -> Result<Vec<Pair>, OutOfMemory>
    requires old_sorted { IsTrue (is_sorted path_cmp old.now) }
    requires new_sorted { IsTrue (is_sorted path_cmp new.items) }
    requires inside { AllByRecursion (λ e. IsTrue (is_in hierarchies.now e.0)) new.items }
    ensures { IfOk result (λ pairs. pairs.items ≡ replaced hierarchies.now old.now new.items) }
{
    let others = copies_outside(alloc, hierarchies, old)?;
    joined(alloc, others, new)
}

// Copies of the entries that are neither at nor below one of the hierarchies.
fn copies_outside(
    alloc: Global,
    hierarchies: &[Name],
    pairs: &[Pair],
) -> Result<Vec<Pair>, OutOfMemory>
    ensures { IfOk result (λ copies. copies.items ≡ outside hierarchies.now pairs.now) }
{
    let mut copies = Vec::new(alloc);
    for pair in pairs {
        push_outside(alloc, &mut copies, hierarchies, pair)?;
    }
    Ok(copies)
}

// Adds a copy of the entry, where it is neither at nor below one of the hierarchies.
fn push_outside(
    alloc: Global,
    copies: &mut Vec<Pair>,
    hierarchies: &[Name],
    pair: &Pair,
) -> Result<(), OutOfMemory>
    ensures { OnOk result (copies.new.items ≡ copies.old.items ++ outside hierarchies.now (pair.now ∷ [])) }
{
    if !is_in(hierarchies, &pair.0.names()) {
        copies.push(copy_below(alloc, pair, 0)?)?;
    }
    Ok(())
}
