// Where a path of a view comes from.
ghost use Rattle.std.specs.Prelude.{◌≡◌, ◌≤◌, ◌++◌, ℕ, List, Some, IfOk, OnOk};
ghost use Rattle.std.specs.List.{AllByRecursion};
ghost use Rattle.ext_tree.specs.Part.{part};
ghost use Rattle.ext_walk.specs.Walk.{Ends};
ghost use Rattle.ext_host.specs.Planning.{ServesHost};
ghost use Rattle.ext_host.specs.Valid.{IsValidHost};
ghost use Rattle.ext_view.specs.Parts.{Leads, LeadsItem};
ghost use Rattle.ext_explain.specs.Adding.{AddsLineOf, HaveImageLines, HaveLines, HaveLinesFromTop, SomeOrNone};
ghost use Rattle.ext_explain.specs.Explaining.{Explains};
ghost use Rattle.ext_explain.specs.Finding.{finding_of};
ghost use Rattle.ext_explain.specs.Layers.{base_layer, origin_of, origin_where};

use crate::errors::ExplainErr;
use crate::searching::spot_at;
use crate::seeing::{finding_from, finding_in};
use ext_host::{Held, Host, Shelf, is_in};
use ext_origin::{Finding, Layer, Origin, Origins};
use ext_text::{Extension, OutOfMemory, Path, PathRef};
use ext_tree::Tree;
use ext_view::{SurveyItem, base_of, chosen, hierarchies_of, image_at, survey_of};
use std::alloc::Global;

/// Where the path comes from in a view that [`refresh`](ext_view::refresh) with the same `force` would show: a line for each of
/// its layers that has an entry at the path, or hides there what lower layers have, the topmost first. The layers are the
/// images that would be merged, in the order of the view, and then the base. For a path outside the hierarchies of the class
/// it is the base alone. A layer hides what is there by a file, a link, a whiteout or an opaque directory above the path, and
/// its line tells the topmost of these. No view is made: an image that is a directory is found by one search in the base, and each
/// name of the path by one near the name before.
///
/// # Errors
/// The first of these:
///
/// - `Survey` for what [`survey`](ext_view::survey) answers.
/// - `NoEntry` exactly where no layer has a line.
///
/// Whatever the answer, the shelf tells the same afterwards.
pub fn explain<H: Shelf>(
    alloc: Global,
    host: &Host,
    class: Extension,
    force: bool,
    path: &Path,
    shelf: &mut H,
) -> Result<Origins, ExplainErr>
    requires valid { IsValidHost host.now }
    requires serves { ServesHost (H.serves shelf.old) host.now }
    ensures gives { Explains (H.told shelf.old) (H.faults shelf.old) (H.faults shelf.new) host.now class force path.now result }
    ensures stays { H.stays shelf.old shelf.new }
    ensures count { H.faults shelf.old ≤ H.faults shelf.new }
{
    let base = base_of(host)?;
    let items = chosen(survey_of(alloc, host, &base, class, force, shelf)?);
    let inside = is_in(hierarchies_of(host, class).as_slice(), &path.names());
    let origins = origins_in(alloc, &base, inside, items.as_slice(), path)?;
    some_of(origins)
}

// The lines, where there are some.
fn some_of(origins: Vec<Origin>) -> Result<Origins, ExplainErr>
    ensures { SomeOrNone origins.items result }
{
    if origins.is_empty() {
        Err(ExplainErr::NoEntry)
    } else {
        Ok(Origins::from_vec(origins))
    }
}

// The lines of the layers of a view at a path that is in its hierarchies, or is not.
fn origins_in(
    alloc: Global,
    base: &Tree<Held>,
    inside: bool,
    items: &[SurveyItem],
    path: &Path,
) -> Result<Vec<Origin>, OutOfMemory>
    requires { AllByRecursion (LeadsItem base.now) items.now }
    ensures { IfOk result (λ origins. HaveLines base.now inside items.now path.now origins.items) }
{
    let mut origins = image_origins(alloc, base, inside, items, path)?;
    push_base(&mut origins, base, path)?;
    Ok(origins)
}

// The lines of the images of a view, the last on top, where the path is in its hierarchies.
fn image_origins(
    alloc: Global,
    base: &Tree<Held>,
    inside: bool,
    items: &[SurveyItem],
    path: &Path,
) -> Result<Vec<Origin>, OutOfMemory>
    requires { AllByRecursion (LeadsItem base.now) items.now }
    ensures { IfOk result (λ origins. HaveImageLines base.now inside items.now path.now origins.items) }
{
    if inside {
        origins_from_top(alloc, base, items, path)
    } else {
        Ok(Vec::new(alloc))
    }
}

// The lines of images, the last on top.
fn origins_from_top(
    alloc: Global,
    base: &Tree<Held>,
    items: &[SurveyItem],
    path: &Path,
) -> Result<Vec<Origin>, OutOfMemory>
    requires { AllByRecursion (LeadsItem base.now) items.now }
    ensures { IfOk result (λ origins. HaveLinesFromTop base.now items.now path.now origins.items) }
{
    let mut origins = Vec::new(alloc);
    for item in items {
        push_image(alloc, &mut origins, base, item, path)?;
    }
    origins.reverse();
    Ok(origins)
}

// Adds the line of an image, where it has one.
fn push_image(
    alloc: Global,
    origins: &mut Vec<Origin>,
    base: &Tree<Held>,
    item: &SurveyItem,
    path: &Path,
) -> Result<(), OutOfMemory>
    requires { LeadsItem base.now item.now }
    ensures { OnOk result (AddsLineOf base.now item.now path.now origins.old.items origins.new.items) }
{
    match finding_of_image(alloc, base, &item.place, path)? {
        None => Ok(()),
        Some(finding) => push_origin(origins, Layer::Image(item.name.copy()?), finding),
    }
}

// What the image at this place has at the path, or hides there. A place that is a directory is the image itself, and is found by
// the search that begins there; else the place leads to the image.
fn finding_of_image(
    alloc: Global,
    base: &Tree<Held>,
    place: &Path,
    path: &Path,
) -> Result<Option<Finding>, OutOfMemory>
    requires { Leads base.now place.now }
    ensures { IfOk result (λ finding. (image : List (List ℕ)) × Ends base.now place.now image
        × (finding ≡ finding_of (part image base.now) path.now)) }
{
    // `pairs` says of the tree that it is one.
    let _entries = base.pairs();
    match spot_at(base, &place.names()) {
        Some(spot) if spot.pair.1.is_directory() => {
            finding_from(base, spot.inside, &place.names(), &path.names())
        }
        _ => finding_in(base, &image_at(alloc, base, place)?, path),
    }
}

// Adds the line of the base, where it has one.
fn push_base(origins: &mut Vec<Origin>, base: &Tree<Held>, path: &Path) -> Result<(), OutOfMemory>
    ensures { OnOk result (origins.new.items ≡ origins.old.items ++ origin_of path.now (base_layer base.now)) }
{
    // `pairs` says of the tree that it is one.
    let _entries = base.pairs();
    match finding_in(base, &PathRef::root(), path)? {
        None => Ok(()),
        Some(finding) => push_origin(origins, Layer::Base, finding),
    }
}

// Adds a line.
fn push_origin(origins: &mut Vec<Origin>, layer: Layer, finding: Finding) -> Result<(), OutOfMemory>
    ensures { OnOk result (origins.new.items ≡ origins.old.items ++ origin_where layer (Some finding)) }
{
    origins.push(Origin { layer, finding })?;
    Ok(())
}
