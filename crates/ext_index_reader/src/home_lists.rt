// Lists of homes in order, each home with its stamp.
ghost use Rattle.std.specs.Prelude.{◌≡◌, ◌≤◌, [], ◌∷◌, ◌++◌, None, length, IfSome, IsTrue, OnErr, OnOk};
ghost use Rattle.std.specs.Bool.{OnTrue};
ghost use Rattle.std.specs.FinMap.{find, is_sorted};
ghost use Rattle.ext_tree.specs.InsertionPoint.{insertion_point, is_past};
ghost use Rattle.ext_index_reader.specs.Homes.{home_cmp};
ghost use Rattle.ext_index_reader.specs.HomeLists.{AreSorted, IsAtEnd, IsWithHome, all_of};

use ext_lines::OutOfMemory;
use ext_tree::Stamp;

/// The stamp of a home in lists in order.
pub(crate) fn found_in_lists(lists: &[Vec<((u32, u32), Stamp)>], home: (u32, u32)) -> Option<Stamp>
    requires { AreSorted lists.now }
    ensures { result ≡ find home_cmp home (all_of lists.now) }
{
    'each: for list in lists {
        let found = found_in(list.as_slice(), home);
        if found.is_some() {
            return found;
        }
    }
    None
}

// The stamp of a home in a list in order.
fn found_in(homes: &[((u32, u32), Stamp)], home: (u32, u32)) -> Option<Stamp>
    requires { IsTrue (is_sorted home_cmp homes.now) }
    ensures { result ≡ find home_cmp home homes.now }
{
    match homes.get(insertion_point_of(homes, home)) {
        Some((other, stamp)) if home.cmp(other).is_eq() => Some(*stamp),
        _ => None,
    }
}

// How many of a list in order come before the home. Where it comes after all of them, or before all, that takes no search.
fn insertion_point_of(homes: &[((u32, u32), Stamp)], home: (u32, u32)) -> usize
    requires { IsTrue (is_sorted home_cmp homes.now) }
    ensures index { result ≡ insertion_point home_cmp home homes.now }
    ensures within { result ≤ length homes.now }
{
    if is_past_all(homes, home) {
        return homes.len();
    }
    if is_before_all(homes, home) {
        return 0;
    }
    homes.partition_point(|other| is_past(home, other))
}

// Whether a home comes after all of a list in order: the last one decides.
fn is_past_all(homes: &[((u32, u32), Stamp)], home: (u32, u32)) -> bool
    requires { IsTrue (is_sorted home_cmp homes.now) }
    ensures { OnTrue result (insertion_point home_cmp home homes.now ≡ length homes.now) }
{
    match homes.last() {
        Some(last) => is_past(home, last),
        None => true,
    }
}

// Whether a home comes before all of a list in order: the first one decides.
fn is_before_all(homes: &[((u32, u32), Stamp)], home: (u32, u32)) -> bool
    ensures { OnTrue result (insertion_point home_cmp home homes.now ≡ 0) }
{
    match homes.first() {
        Some(first) => home.cmp(&first.0).is_lt(),
        None => true,
    }
}

// Whether a home comes after another one.
fn is_past(home: (u32, u32), other: &((u32, u32), Stamp)) -> bool
    ensures { result ≡ is_past home_cmp home other.now }
{
    home.cmp(&other.0).is_gt()
}

/// The index of the first list all of whose homes come before this one.
pub(crate) fn list_before(lists: &[Vec<((u32, u32), Stamp)>], home: (u32, u32)) -> Option<usize>
    requires { AreSorted lists.now }
    ensures { IfSome result (λ i. IsAtEnd home lists.now i) }
{
    for (index, list) in lists.iter().enumerate() {
        if is_past_all(list.as_slice(), home) {
            return Some(index);
        }
    }
    None
}

/// Adds a home that the lists lack at the end of this one.
pub(crate) fn push_at(
    lists: &mut Vec<Vec<((u32, u32), Stamp)>>,
    index: usize,
    home: (u32, u32),
    stamp: Stamp,
) -> Result<(), OutOfMemory>
    requires at_end { IsAtEnd home lists.old.items index }
    requires lacking { find home_cmp home (all_of lists.old.items) ≡ None }
    requires sorted { AreSorted lists.old.items }
    ensures ok { OnOk result (IsWithHome lists.old.items lists.new.items home stamp) }
    ensures sorted { AreSorted lists.new.items }
{
    push(&mut lists[index], home, stamp)
}

/// Adds a home that the lists lack as a list of its own.
pub(crate) fn push_list(
    lists: &mut Vec<Vec<((u32, u32), Stamp)>>,
    home: (u32, u32),
    stamp: Stamp,
) -> Result<(), OutOfMemory>
    requires lacking { find home_cmp home (all_of lists.old.items) ≡ None }
    requires sorted { AreSorted lists.old.items }
    ensures ok { OnOk result (IsWithHome lists.old.items lists.new.items home stamp) }
    ensures sorted { AreSorted lists.new.items }
{
    let mut list = Vec::new(*lists.allocator());
    push(&mut list, home, stamp)?;
    lists.push(list)?;
    Ok(())
}

// Adds a home at the end of a list.
fn push(
    list: &mut Vec<((u32, u32), Stamp)>,
    home: (u32, u32),
    stamp: Stamp,
) -> Result<(), OutOfMemory>
    ensures ok { OnOk result (list.new.items ≡ list.old.items ++ (home, stamp) ∷ []) }
    ensures err { OnErr result (list.new.items ≡ list.old.items) }
{
    list.push((home, stamp))?;
    Ok(())
}
