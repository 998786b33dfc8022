// Where an attachment puts something.
ghost use Rattle.std.specs.Prelude.{◌≡◌, ◌++◌, ◌∷◌, [], ℕ, Bool, List, map, IfOk, OnOk};
ghost use Rattle.std.specs.List.{filter, list_any};
ghost use Rattle.ext_added.specs.Destination.{destination, drop_in_name, image_directory};
ghost use Rattle.ext_added.specs.Tops.{has_drop_ins, image_tops, image_ways, tops_of, ways_of};

use crate::attaching::Attaching;
use crate::destination::{child, destination, drop_in_name, image_directory};
use crate::image::image_top;
use crate::services::is_service;
use ext_text::{OutOfMemory, Path, SortedPaths};
use ext_units::UnitFile;
use std::alloc::Global;

/// The paths at which an attachment puts something, in path order: those of its units, of the directories of their drop-ins, and of
/// its image where that is put. A directory whose name is too long is left out.
///
/// # Errors
/// `OutOfMemory` alone.
pub fn tops_of(alloc: Global, attaching: &Attaching) -> Result<Vec<Path>, OutOfMemory>
    ensures { IfOk result (λ tops. tops.items ≡ tops_of attaching.now) }
{
    let directory = destination(alloc, attaching.runtime)?;
    let units = attaching.units.as_slice();
    let mut tops = Vec::new(alloc);
    append_units(&mut tops, &directory, units)?;
    append_drop_ins(alloc, &mut tops, &directory, units)?;
    append_image_top(alloc, &mut tops, attaching)?;
    Ok(tops)
}

// Appends the paths of units.
fn append_units(
    tops: &mut Vec<Path>,
    directory: &Path,
    units: &[UnitFile],
) -> Result<(), OutOfMemory>
    ensures { OnOk result (tops.new.items ≡ tops.old.items ++ map (λ unit. directory.now ++ unit.name ∷ []) units.now) }
{
    'units: for unit in units {
        tops.push(child(directory, &unit.name)?)?;
    }
    Ok(())
}

// Appends the paths of the directories of drop-ins.
fn append_drop_ins(
    alloc: Global,
    tops: &mut Vec<Path>,
    directory: &Path,
    units: &[UnitFile],
) -> Result<(), OutOfMemory>
    ensures { OnOk result (tops.new.items ≡ tops.old.items
        ++ map (λ unit. directory.now ++ drop_in_name unit.name ∷ []) (filter has_drop_ins units.now)) }
{
    'units: for unit in units {
        append_drop_in(alloc, tops, directory, unit)?;
    }
    Ok(())
}

// Appends the path of the directory of a service's drop-ins, where it is one.
fn append_drop_in(
    alloc: Global,
    tops: &mut Vec<Path>,
    directory: &Path,
    unit: &UnitFile,
) -> Result<(), OutOfMemory>
    ensures { OnOk result (tops.new.items ≡ tops.old.items
        ++ map (λ unit. directory.now ++ drop_in_name unit.name ∷ []) (filter has_drop_ins (unit.now ∷ []))) }
{
    if is_service(unit) {
        if let Some(name) = drop_in_name(alloc, unit.name.bytes())? {
            tops.push(child(directory, &name)?)?;
        }
    }
    Ok(())
}

// Appends the path of the image, where it is put.
fn append_image_top(
    alloc: Global,
    tops: &mut Vec<Path>,
    attaching: &Attaching,
) -> Result<(), OutOfMemory>
    ensures { OnOk result (tops.new.items ≡ tops.old.items ++ image_tops attaching.now) }
{
    if attaching.outside {
        tops.push(image_top(alloc, attaching.runtime, &attaching.place)?)?;
    }
    Ok(())
}

/// The directories in which it puts something, and those above them, the root aside, in path order.
///
/// # Errors
/// `OutOfMemory` alone.
pub fn ways_of(alloc: Global, attaching: &Attaching) -> Result<SortedPaths, OutOfMemory>
    ensures { IfOk result (λ ways. (test : List (List ℕ) → Bool) → list_any test ways ≡ list_any test (ways_of attaching.now)) }
{
    let directory = destination(alloc, attaching.runtime)?;
    let mut ways = Vec::new(alloc);
    ways.push(directory.prefix(1)?)?;
    ways.push(directory.prefix(2)?)?;
    ways.push(directory)?;
    append_image_way(alloc, &mut ways, attaching)?;
    Ok(SortedPaths::of(ways))
}

// Appends the directory of images, where one is put there.
fn append_image_way(
    alloc: Global,
    ways: &mut Vec<Path>,
    attaching: &Attaching,
) -> Result<(), OutOfMemory>
    ensures { OnOk result (ways.new.items ≡ ways.old.items ++ image_ways attaching.now) }
{
    if attaching.outside {
        ways.push(image_directory(alloc, attaching.runtime)?)?;
    }
    Ok(())
}
