// The instances of one transfer.
ghost use Rattle.std.specs.Prelude.{◌≡◌, map, IfOk, OnOk};
ghost use Rattle.ext_versions.specs.Versions.{AreVersions};
ghost use Rattle.ext_installed.specs.Resource.{AreItemsOf, with_item};

use crate::instance::Instance;
use crate::resource::instance_at;
use ext_lines::OutOfMemory;
use ext_transfer::Transfer;
use ext_tree::{Tree, after};
use ext_versions::Versions;
use std::alloc::Global;

// The instances of the transfer at this place, in the order of their paths. What lies below an entry is passed by a search.
pub(crate) fn instances_of<C>(
    alloc: Global,
    base: &Tree<C>,
    place: usize,
    transfer: &Transfer,
) -> Result<Vec<Instance>, OutOfMemory>
    ensures { IfOk result (λ items. AreItemsOf base.now place transfer.now items.items) }
{
    let mut items = Vec::new(alloc);
    let mut rest = base.below(&transfer.target.path.names());
    'entries: while let [entry, ..] = rest {
        keep(&mut items, instance_at(alloc, place, transfer, entry)?)?;
        rest = after(rest, &entry.0.names());
    }
    Ok(items)
}

// Keeps an instance, if there is one.
fn keep(items: &mut Vec<Instance>, instance: Option<Instance>) -> Result<(), OutOfMemory>
    ensures { OnOk result (items.new.items ≡ with_item items.old.items instance) }
{
    match instance {
        None => Ok(()),
        Some(instance) => {
            items.push(instance)?;
            Ok(())
        }
    }
}

// The versions of instances.
pub(crate) fn versions_of(alloc: Global, items: &[Instance]) -> Result<Versions, OutOfMemory>
    ensures { IfOk result (AreVersions (map (λ item. item.version) items.now)) }
{
    let mut versions = Vec::new(alloc);
    'items: for item in items {
        versions.push(item.version.copy()?)?;
    }
    Ok(Versions::of(versions))
}
