// The instances of all transfers.
ghost use Rattle.std.specs.Prelude.{◌<◌, length, IfOk};
ghost use Rattle.ext_installed.specs.Installed.{AreInstalled};

use crate::instance::Instances;
use crate::target::{instances_of, versions_of};
use ext_lines::OutOfMemory;
use ext_text::ListOf;
use ext_transfer::Transfer;
use ext_tree::Tree;
use ext_versions::common;
use std::alloc::Global;

/// What a host has of the resources of some transfers, of which there is one at least, after sysupdate.d(5).
///
/// An instance of a transfer is an entry directly in its target that is a file, for a transfer of files, or a directory, plain
/// or opaque, for one of directories, and whose name is read as a version by the first of the target's patterns that matches
/// it. Neither a link in the target's path nor an entry that is a link is followed. That, and that the first pattern decides,
/// is this project's own choice. Two versions are the same where their bytes are.
///
/// The names in each target are looked at once, each by the patterns of that target. The rest is searching and sorting.
///
/// # Errors
/// `OutOfMemory` alone.
pub fn installed<C>(
    alloc: Global,
    base: &Tree<C>,
    transfers: &[Transfer],
) -> Result<Instances, OutOfMemory>
    requires { 0 < length transfers.now }
    ensures { IfOk result (AreInstalled base.now transfers.now) }
{
    let mut items = Vec::new(alloc);
    let mut lists = Vec::new(alloc);
    'transfers: for (place, transfer) in transfers.iter().enumerate() {
        let mut found = instances_of(alloc, base, place, transfer)?;
        lists.push(versions_of(alloc, found.as_slice())?)?;
        items.append(&mut found)?;
    }
    Ok(Instances {
        transfers: transfers.len(),
        items: ListOf::from_vec(items),
        versions: common(lists),
    })
}
