// What a portable service is.
ghost use Rattle.std.specs.Prelude.{◌≡◌, ◌≤◌, IfOk};
ghost use Rattle.std.specs.FinMap.{get};
ghost use Rattle.ext_host.specs.Planning.{ServesAll};
ghost use Rattle.ext_units.specs.Inspecting.{Inspects, InspectsBody};

use crate::body::{Body, body_of};
use crate::choosing::units_of;
use crate::errors::InspectErr;
use crate::image::Image;
use crate::inspected::Inspect;
use crate::unit_file::names_of;
use ext_host::{Held, Shelf};
use ext_release::Release;
use ext_text::{Arch, Names, OutOfMemory, Text};
use ext_tree::Tree;
use std::alloc::Global;

/// Where the image of a portable service is, what its release file says of itself, and which units it has by the prefixes that are
/// given, or by its name where none is. [`body_of`] reads the image, and [`units_of`] tells its units. After portablectl(1).
///
/// # Errors
/// The first of these:
///
/// - `NoSuchImage`, `NotPortable`, `BadRelease` and `Shelf` as `body_of` answers.
/// - `PrefixForbidden` and `NoUnits` as `units_of` answers.
/// - `OutOfMemory`.
///
/// Whatever the answer, the shelf tells the same afterwards.
pub fn inspect<H: Shelf>(
    alloc: Global,
    base: &Tree<Held>,
    arch: Arch,
    image: &Image,
    given: &Names,
    shelf: &mut H,
) -> Result<Inspect, InspectErr>
    requires { ServesAll (H.serves shelf.old) base.now }
    ensures gives { Inspects (H.told shelf.old) (H.faults shelf.old) (H.faults shelf.new) base.now arch image.now given.now result }
    ensures stays { H.stays shelf.old shelf.new }
    ensures count { H.faults shelf.old ≤ H.faults shelf.new }
{
    let body = body_of(alloc, base, arch, image, shelf)?;
    inspect_body(alloc, body, given)
}

// What is told of an image.
fn inspect_body(alloc: Global, body: Body, given: &Names) -> Result<Inspect, InspectErr>
    ensures { InspectsBody body given.now result }
{
    let units = units_of(alloc, &body, &body.tree, given)?;
    let id = value_of(alloc, &body.release, "ID")?;
    let version = value_of(alloc, &body.release, "VERSION_ID")?;
    let names = names_of(alloc, units.as_slice())?;
    Ok(Inspect {
        place: body.place,
        id,
        version,
        units: names,
    })
}

// The value of a key of a release.
fn value_of(alloc: Global, release: &Release, key: &str) -> Result<Option<Text>, OutOfMemory>
    ensures { IfOk result (λ value. value ≡ get release.now key.now) }
{
    match release.value(key) {
        None => Ok(None),
        Some(value) => Ok(Some(Text::from_bytes(alloc, value.as_bytes())?)),
    }
}
