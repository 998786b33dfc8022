// The features of a component.
ghost use Rattle.std.specs.Prelude.{◌≤◌, IfOk};
ghost use Rattle.std.specs.Option.{option_copied};
ghost use Rattle.ext_host.specs.Planning.{ServesAll};
ghost use Rattle.ext_feature.specs.Features.{FeaturesGive};
ghost use Rattle.ext_feature.specs.Steps.{IsInNameOrder};

use crate::errors::FeaturesErr;
use crate::feature::Features;
use crate::reading::read_features;
use ext_configs::{ConfigKind, config_files};
use ext_host::{Held, Shelf};
use ext_lines::allocated;
use ext_text::OutOfMemory;
use ext_transfer::Component;
use ext_tree::Tree;
use std::alloc::Global;

/// The features of a component, or of a host's updates beside all components, in byte order of their names. Each feature file that
/// counts says one: its name is that of the file without `.feature`, and [`read_feature`](ext_transfer::read_feature) tells whether
/// it is on. After sysupdate.features(5); which files count, [`config_files`] tells.
///
/// # Errors
/// - `BadFeature` with the first file that is faulty, in byte order of the names of the files, and its first fault.
/// - `Shelf` where the shelf does not give the bytes of a feature file, for the cause that it has: a fault only where its count
///   rose, damage only of that file.
/// - `OutOfMemory`.
///
/// Whatever the answer, the shelf tells the same afterwards.
pub fn features<H: Shelf>(
    alloc: Global,
    base: &Tree<Held>,
    component: Option<&Component>,
    shelf: &mut H,
) -> Result<Features, FeaturesErr>
    requires { ServesAll (H.serves shelf.old) base.now }
    ensures gives { FeaturesGive (H.told shelf.old) (H.faults shelf.old) (H.faults shelf.new) base.now
        (option_copied component.entry) result }
    ensures stays { H.stays shelf.old shelf.new }
    ensures count { H.faults shelf.old ≤ H.faults shelf.new }
{
    let files = config_files(alloc, base, component, ConfigKind::Feature)?;
    let read = read_features(alloc, files.as_slice(), shelf)?;
    Ok(in_name_order(read)?)
}

// The features in byte order of their names, which isn't that of the names of their files: `a-b.feature` comes before `a.feature`.
fn in_name_order(features: Features) -> Result<Features, OutOfMemory>
    ensures { IfOk result (IsInNameOrder features) }
{
    let mut ordered = features.into_vec();
    allocated(ordered.sort_by(|a, b| a.name.bytes().cmp(b.name.bytes())))?;
    Ok(Features::from_vec(ordered))
}
