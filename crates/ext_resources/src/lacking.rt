// Which transfers have no instance of a version.
ghost use Rattle.std.specs.Prelude.{◌≡◌, map, IfOk, OnOk};
ghost use Rattle.std.specs.List.{range_with_len};
ghost use Rattle.ext_resources.specs.Steps.{marked, with_unmarked};
ghost use Rattle.ext_resources.specs.Wanted.{has_instance, lacking_places};

use ext_installed::Instance;
use ext_lines::{OutOfMemory, allocated};
use std::alloc::Global;

// The places, ascending, of those of so many transfers that have no instance of the version. Each instance is looked at once.
pub(crate) fn lacking(
    alloc: Global,
    count: usize,
    items: &[Instance],
    version: &[u8],
) -> Result<Vec<usize>, OutOfMemory>
    ensures { IfOk result (λ places. places.items ≡ lacking_places items.now version.now count) }
{
    let have = which_have(alloc, count, items, version)?;
    let mut places = Vec::new(alloc);
    for place in 0..count {
        push_unmarked(&mut places, place, have[place])?;
    }
    Ok(places)
}

// Adds a place that isn't marked.
fn push_unmarked(places: &mut Vec<usize>, place: usize, mark: bool) -> Result<(), OutOfMemory>
    ensures { OnOk result (places.new.items ≡ with_unmarked places.old.items place mark) }
{
    if !mark {
        places.push(place)?;
    }
    Ok(())
}

// Of each of so many transfers, whether it has an instance of the version.
fn which_have(
    alloc: Global,
    count: usize,
    items: &[Instance],
    version: &[u8],
) -> Result<Vec<bool>, OutOfMemory>
    ensures { IfOk result (λ have. have.items ≡ map (has_instance items.now version.now) (range_with_len 0 count)) }
{
    let mut have = allocated(vec![in alloc; false; count])?;
    for item in items {
        mark(&mut have, item, version);
    }
    Ok(have)
}

// Marks the transfer of an instance of the version; nothing, where there is no such transfer.
fn mark(have: &mut [bool], item: &Instance, version: &[u8])
    ensures { have.new ≡ marked version.now have.old item.now }
{
    if item.version.bytes() == version && item.transfer < have.len() {
        have[item.transfer] = true;
    }
}
