// What the links to the current version name.
ghost use Rattle.std.specs.Prelude.{◌≡◌, ℕ, IfOk, OnOk};
ghost use Rattle.std.specs.BTreeMap.{get};
ghost use Rattle.std.specs.Option.{option_map, option_or};
ghost use Rattle.std.specs.Ordering.{nat_cmp};
ghost use Rattle.ext_update.specs.Drafts.{current_at, first_name, only};
ghost use Rattle.ext_update.specs.Writing.{first_instance};
ghost use Rattle.ext_update.specs.declared.draft.Current.TheVariants.{Had, Written};

use crate::draft::Current;
use ext_installed::Instance;
use ext_resources::Resource;
use ext_text::OutOfMemory;
use std::alloc::Global;
use std::collections::BTreeMap;

// What the link of the transfer at each place names: the first of its instances of the version, or else its resource.
pub(crate) type Currents = BTreeMap<usize, Current>;

// What the links of transfers to a version name.
pub(crate) fn currents(
    alloc: Global,
    items: &[Instance],
    resources: &[Resource],
    version: &[u8],
) -> Result<Currents, OutOfMemory>
    ensures { IfOk result (λ currents. (place : ℕ)
        → get nat_cmp currents place ≡ current_at items.now resources.now version.now place) }
{
    let mut currents = BTreeMap::new(alloc);
    add_instances(&mut currents, items, version)?;
    add_resources(&mut currents, resources)?;
    Ok(currents)
}

// Adds the instances of the version, where nothing is named yet.
fn add_instances(
    currents: &mut Currents,
    items: &[Instance],
    version: &[u8],
) -> Result<(), OutOfMemory>
    ensures { OnOk result ((place : ℕ) → get nat_cmp currents.new place
        ≡ option_or (get nat_cmp currents.old place) (option_map Had (first_instance items.now version.now place))) }
{
    'items: for item in items {
        if item.version.bytes() == version {
            add(currents, item.transfer, Current::Had(item.path.copy()?))?;
        }
    }
    Ok(())
}

// Adds the resources, where nothing is named yet.
fn add_resources(currents: &mut Currents, resources: &[Resource]) -> Result<(), OutOfMemory>
    ensures { OnOk result ((place : ℕ) → get nat_cmp currents.new place
        ≡ option_or (get nat_cmp currents.old place) (option_map Written (first_name resources.now place))) }
{
    'resources: for resource in resources {
        add(
            currents,
            resource.transfer,
            Current::Written(resource.name.copy()?),
        )?;
    }
    Ok(())
}

// Adds what the link of the transfer at a place names, where nothing is named yet.
fn add(currents: &mut Currents, place: usize, current: Current) -> Result<(), OutOfMemory>
    ensures { OnOk result ((other : ℕ) → get nat_cmp currents.new other
        ≡ option_or (get nat_cmp currents.old other) (only place current other)) }
{
    if !currents.contains_key(&place) {
        currents.insert(place, current)?;
    }
    Ok(())
}
