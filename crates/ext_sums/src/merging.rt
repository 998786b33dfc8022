// Entries in the order of their names, each name once.
ghost use Rattle.std.specs.Prelude.{◌≡◌, ◌-◌, length, slice_get, IfOk};
ghost use Rattle.ext_sums.specs.Merging.{AreByName, IsMerge, least, same_or_other, standing_of};
ghost use Rattle.ext_sums.specs.Sums.{entries_of};

use crate::sums::Listed;
use ext_lines::{OutOfMemory, allocated};
use std::alloc::Global;

/// A name and its digest, with the number of the line that lists them, counted from 1. The key is the name's own for a sort,
/// and 0 before it.
#[derive(Drop)]
pub(crate) struct Numbered {
    pub(crate) key: u64,
    pub(crate) listed: Listed,
    pub(crate) line: u64,
}

/// Names in order, each once, and the first line that lists one with another digest.
#[derive(Drop)]
pub(crate) struct Merge {
    pub(crate) listed: Vec<Listed>,
    pub(crate) conflict: Option<u64>,
}

// What a line is to the last name before it.
enum Standing {
    // It has another name.
    New,
    // It has the same name and the same digest.
    Same,
    // It has the same name and another digest.
    Other,
}

// Each name once, and the first line that conflicts. What a name has is what its first line says: the last name so far is
// the only one that the next line can have again.
pub(crate) fn merged(alloc: Global, lines: Vec<Numbered>) -> Result<Merge, OutOfMemory>
    requires { AreByName lines.items }
    ensures { IfOk result (λ merge. IsMerge lines.items (entries_of merge.listed.items) merge.conflict) }
{
    let mut listed = allocated(Vec::with_capacity(alloc, lines.len()))?;
    let mut conflict = None;
    for each in lines {
        match standing_of(listed.as_slice(), &each.listed) {
            Standing::New => allocated(listed.push(each.listed))?,
            Standing::Same => {}
            Standing::Other => conflict = Some(least(conflict, each.line)),
        }
    }
    Ok(Merge { listed, conflict })
}

// What the next line is to the last name so far.
fn standing_of(listed: &[Listed], next: &Listed) -> Standing
    ensures { result ≡ standing_of (slice_get listed.now (length listed.now - 1)) next.now }
{
    match listed.last() {
        Some(last) if last.name.bytes() == next.name.bytes() => same_or_other(last, next),
        _ => Standing::New,
    }
}

// Whether two lines of one name have the same digest.
fn same_or_other(last: &Listed, next: &Listed) -> Standing
    ensures { result ≡ same_or_other last.now next.now }
{
    if last.digest.0 == next.digest.0 {
        Standing::Same
    } else {
        Standing::Other
    }
}

// The least of the lines that conflict, with one more.
fn least(conflict: Option<u64>, line: u64) -> u64
    ensures { result ≡ least conflict line }
{
    match conflict {
        Some(first) if first < line => first,
        _ => line,
    }
}
