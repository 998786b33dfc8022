// The extensions of a service, one after the other.
ghost use Rattle.std.specs.Prelude.{◌≡◌, ◌≤◌, None, IfOk, IsTrue};
ghost use Rattle.std.specs.List.{AllByRecursion};
ghost use Rattle.ext_walk.specs.Leads.{LeadsToDirectory};
ghost use Rattle.ext_host.specs.Planning.{ServesAll};
ghost use Rattle.ext_units.specs.Body.{IsTreeOf};
ghost use Rattle.ext_port.specs.Given.{IsAsked};
ghost use Rattle.ext_portext.specs.Extension.{IsExtensionAt};
ghost use Rattle.ext_portext.specs.Judged.{LeadsToExtensionFile};
ghost use Rattle.ext_portext.specs.Steps.{ReadsExtension, ReadsExtensions, SaysOfExtension, extending_of};

use crate::errors::{ExtWhy, PortExtErr};
use crate::extending::{Extending, Fitting};
use crate::extension::{Placed, extension_at};
use crate::judging::says;
use ext_find::BreakWhy;
use ext_host::{Held, Host, Shelf};
use ext_lines::allocated;
use ext_release::Release;
use ext_text::{OutOfMemory, Path};
use ext_tree::Tree;
use ext_units::{Image, tree_at};
use std::alloc::Global;

// What extensions are looked for in, and judged by.
#[derive(Clone, Copy)]
pub(crate) struct Look<'a> {
    pub(crate) alloc: Global,
    pub(crate) host: &'a Host,
    pub(crate) base: &'a Tree<Held>,
    // What the release file of the image of the service assigns.
    pub(crate) release: &'a Release,
}

// All of the extensions, which are there and fit.
pub(crate) fn read_all<H: Shelf>(
    look: &Look,
    images: &[Image],
    shelf: &mut H,
) -> Result<Fitting, PortExtErr>
    requires asked { AllByRecursion IsAsked images.now }
    requires serves { ServesAll (H.serves shelf.old) look.now.base.now }
    ensures gives { ReadsExtensions (H.told shelf.old) look.now.host.now look.now.base.now look.now.release.now
        (H.faults shelf.old) (H.faults shelf.new) images.now result }
    ensures stays { H.stays shelf.old shelf.new }
    ensures count { H.faults shelf.old ≤ H.faults shelf.new }
{
    let mut all = allocated(Vec::with_capacity(look.alloc, images.len()))?;
    for image in images {
        let at = all.len() as u64;
        match read_one(look, at, image, shelf) {
            Ok(extending) => allocated(all.push(extending))?,
            Err(failed) => return Err(failed),
        }
    }
    Ok(Fitting::from_vec(all))
}

// The extension at this place in the list, which is there and fits.
fn read_one<H: Shelf>(
    look: &Look,
    at: u64,
    image: &Image,
    shelf: &mut H,
) -> Result<Extending, PortExtErr>
    requires asked { IsAsked image.now }
    requires serves { ServesAll (H.serves shelf.old) look.now.base.now }
    ensures gives { ReadsExtension (H.told shelf.old) look.now.host.now look.now.base.now look.now.release.now
        (H.faults shelf.old) (H.faults shelf.new) at image.now result }
    ensures stays { H.stays shelf.old shelf.new }
    ensures count { H.faults shelf.old ≤ H.faults shelf.new }
{
    match extension_at(look.alloc, look.host, look.base, image)? {
        None => Err(PortExtErr::NoExtension { at }),
        Some(placed) => read_placed(look, at, image, placed, shelf),
    }
}

// The extension that is there, which fits.
fn read_placed<H: Shelf>(
    look: &Look,
    at: u64,
    image: &Image,
    placed: Placed,
    shelf: &mut H,
) -> Result<Extending, PortExtErr>
    requires placed { IsExtensionAt look.now.host.now look.now.base.now image.now placed.place placed.broken }
    requires serves { ServesAll (H.serves shelf.old) look.now.base.now }
    ensures gives { ReadsExtension (H.told shelf.old) look.now.host.now look.now.base.now look.now.release.now
        (H.faults shelf.old) (H.faults shelf.new) at image.now result }
    ensures stays { H.stays shelf.old shelf.new }
    ensures count { H.faults shelf.old ≤ H.faults shelf.new }
{
    let Placed { place, broken } = placed;
    let tree = tree_of(look.alloc, look.base, &place)?;
    let said = said_of(look, &tree, image.name(), broken, shelf);
    extending_of(at, place, tree, said)
}

// The extension at this place in the list, by what is said of it.
fn extending_of(
    at: u64,
    place: Path,
    tree: Tree<Held>,
    said: Result<Option<ExtWhy>, PortExtErr>,
) -> Result<Extending, PortExtErr>
    ensures { result ≡ extending_of at place tree said }
{
    match said {
        Ok(None) => Ok(Extending { place, tree }),
        Ok(Some(why)) => Err(PortExtErr::Extension { at, why }),
        Err(failed) => Err(failed),
    }
}

// Why the extension of this tree and name does not fit; `None` where it does.
fn said_of<H: Shelf>(
    look: &Look,
    tree: &Tree<Held>,
    name: &[u8],
    broken: Option<BreakWhy>,
    shelf: &mut H,
) -> Result<Option<ExtWhy>, PortExtErr>
    requires leads { broken ≡ None → LeadsToExtensionFile tree.now name.now }
    requires serves { ServesAll (H.serves shelf.old) tree.now }
    ensures gives { SaysOfExtension look.now.release.now look.now.host.now.arch (H.told shelf.old)
        (H.faults shelf.old) (H.faults shelf.new) tree.now name.now broken result }
    ensures stays { H.stays shelf.old shelf.new }
    ensures count { H.faults shelf.old ≤ H.faults shelf.new }
{
    match broken {
        Some(why) => Ok(Some(ExtWhy::Broken(why))),
        None => says(look.alloc, look.release, look.host.arch, tree, name, shelf),
    }
}

// What stands below the directory to which the place of an extension leads.
fn tree_of(alloc: Global, base: &Tree<Held>, place: &Path) -> Result<Tree<Held>, OutOfMemory>
    requires { LeadsToDirectory base.now place.now }
    ensures { IfOk result (IsTreeOf base.now place.now) }
{
    match tree_at(alloc, base, place)? {
        None => unreachable!(),
        Some(tree) => Ok(tree),
    }
}
