// One marked list laid over another, in one pass over both.
ghost use Rattle.std.specs.Prelude.{◌≡◌, ◌+◌, ◌≤◌, ◌++◌, drop, length, map, IfOk, OnOk, IsTrue};
ghost use Rattle.std.specs.FinMap.{is_sorted};
ghost use Rattle.ext_text.specs.Path.{path_cmp};
ghost use Rattle.ext_tree.specs.InsertionPoint.{insertion_point, is_past};
ghost use Rattle.ext_layer.specs.Overlay.{count_hidden, cuts_at, first_at, hides, over, over_entry};
ghost use Rattle.ext_layer.specs.Item.{all_seen, seen};

use crate::item::{Item, Lies};
use ext_text::{OutOfMemory, Path};
use std::alloc::Global;

// How many lower items are passed at once, where they all stand before an upper one.
const STRIDE: usize = 64;

// The upper list laid over the lower one.
pub(crate) fn merged<'a, C>(
    alloc: Global,
    upper: &[Item<'a, C>],
    lower: &[Item<'a, C>],
) -> Result<Vec<Item<'a, C>>, OutOfMemory>
    requires upper { IsTrue (is_sorted path_cmp (all_seen upper.now)) }
    requires lower { IsTrue (is_sorted path_cmp (all_seen lower.now)) }
    ensures { IfOk result (λ merged. all_seen merged.items ≡ over (all_seen upper.now) (all_seen lower.now)) }
{
    let mut merged = Vec::with_capacity(alloc, upper.len().saturating_add(lower.len()))?;
    let mut from = 0;
    'uppers: for item in upper {
        let (_passed, rest) = lower.split_at(from);
        let index = insertion_point(rest, item);
        let (before, after) = rest.split_at(index);
        append(&mut merged, before)?;
        merged.push(laid_over(item, after))?;
        from += index + count_hidden(after, item);
    }
    let (_passed, rest) = lower.split_at(from);
    append(&mut merged, rest)?;
    Ok(merged)
}

// Adds items at the end.
fn append<'a, C>(items: &mut Vec<Item<'a, C>>, more: &[Item<'a, C>]) -> Result<(), OutOfMemory>
    ensures { OnOk result (items.new.items ≡ items.old.items ++ more.now) }
{
    items.extend_from_slice(more)?;
    Ok(())
}

/// How many of the lower items stand before the upper one. Whole strides are passed by one comparison each, so that a
/// few upper items in a large lower list cost little.
pub(crate) fn insertion_point<C, L: Lies<C>>(lower: &[L], upper: &Item<C>) -> usize
    requires { IsTrue (is_sorted path_cmp (map L.sees lower.now)) }
    ensures count { result ≡ insertion_point path_cmp (seen upper.now).0 (map L.sees lower.now) }
    ensures within { result ≤ length lower.now }
{
    let mut passed = 0;
    'strides: loop {
        let (_before, rest) = lower.split_at(passed);
        if passes_stride(rest, upper) {
            passed += STRIDE;
        } else {
            return passed + insertion_near(rest, upper);
        }
    }
}

// Whether the upper item is past the last one of a whole stride, and so past all of the stride.
fn passes_stride<C, L: Lies<C>>(lower: &[L], upper: &Item<C>) -> bool
    requires { IsTrue (is_sorted path_cmp (map L.sees lower.now)) }
    ensures within { IsTrue result → STRIDE ≤ length lower.now }
    ensures passed { IsTrue result → insertion_point path_cmp (seen upper.now).0 (map L.sees lower.now)
        ≡ STRIDE + insertion_point path_cmp (seen upper.now).0 (map L.sees (drop STRIDE lower.now)) }
{
    match lower.get(STRIDE - 1) {
        Some(last) => is_past(upper, last),
        None => false,
    }
}

// How many of the lower items stand before the upper one, by a comparison for each.
fn insertion_near<C, L: Lies<C>>(lower: &[L], upper: &Item<C>) -> usize
    ensures count { result ≡ insertion_point path_cmp (seen upper.now).0 (map L.sees lower.now) }
    ensures within { result ≤ length lower.now }
{
    'near: for (index, item) in lower.iter().enumerate() {
        if !is_past(upper, item) {
            return index;
        }
    }
    lower.len()
}

// Whether the upper item stands past the lower one.
fn is_past<C, L: Lies<C>>(upper: &Item<C>, item: &L) -> bool
    ensures { result ≡ is_past path_cmp (seen upper.now).0 (L.sees item.now) }
{
    upper.pair.0.cmp(item.path()).is_gt()
}

/// How many lower items the upper one hides, of those that do not stand before it.
pub(crate) fn count_hidden<C, L: Lies<C>>(lower: &[L], upper: &Item<C>) -> usize
    ensures count { result ≡ count_hidden (seen upper.now) (map L.sees lower.now) }
    ensures within { result ≤ length lower.now }
{
    'hidden: for (count, item) in lower.iter().enumerate() {
        if !hides(upper, item.path()) {
            return count;
        }
    }
    lower.len()
}

// Whether the upper item hides what stands at the path: at its own path, and below it where it cuts.
fn hides<C>(upper: &Item<C>, path: &Path) -> bool
    ensures { result ≡ hides (seen upper.now) path.now }
{
    if upper.cuts {
        path.starts_with(&upper.pair.0)
    } else {
        path.cmp(&upper.pair.0).is_eq()
    }
}

/// The upper item as it lies over the lower ones that do not stand before it.
pub(crate) fn laid_over<'a, C, L: Lies<C>>(upper: &Item<'a, C>, lower: &[L]) -> Item<'a, C>
    ensures path { (seen result).0 ≡ (seen upper.now).0 }
    ensures mark { (seen result).1 ≡ over_entry (seen upper.now).1 (first_at (seen upper.now).0 (map L.sees lower.now)) }
{
    Item {
        pair: upper.pair,
        cuts: upper.cuts || cuts_first(lower, &upper.pair.0),
    }
}

// Whether the first item stands at the path and cuts.
fn cuts_first<C, L: Lies<C>>(items: &[L], path: &Path) -> bool
    ensures { result ≡ cuts_at (first_at path.now (map L.sees items.now)) }
{
    match items {
        [] => false,
        [first, ..] => first.cuts() && first.path().cmp(path).is_eq(),
    }
}
