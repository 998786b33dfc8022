// What an image is: its tree, and what its release file assigns.
ghost use Rattle.std.specs.Prelude.{◌≡◌, ◌≤◌, ℕ, List, IsTrue, IfOk};
ghost use Rattle.ext_text.specs.Path.{IsPath};
ghost use Rattle.ext_tree.specs.Part.{part};
ghost use Rattle.ext_tree.specs.Tree.{is_directory_or_root};
ghost use Rattle.ext_host.specs.Planning.{ServesAll};
ghost use Rattle.ext_units.specs.Body.{ReadsBody, ReadsImage, ReadsBodyOf, TreeAt};

use crate::errors::BodyErr;
use crate::image::{Image, image_at};
use ext_find::host_release;
use ext_host::{Held, Shelf};
use ext_release::Release;
use ext_text::{Arch, OutOfMemory, Path, PathRef};
use ext_tree::{Tree, TreeErr};
use ext_walk::directory_at;
use std::alloc::Global;

/// An image of a portable service.
#[derive(Drop)]
pub struct Body {
    /// Where it is in the base.
    pub place: Path,
    /// What the base has below the directory to which the place leads, copied, with that directory's path taken off.
    pub tree: Tree<Held>,
    /// What its release file assigns.
    pub release: Release,
}

/// The image, with its tree and its release: [`body_at`] its place, which [`image_at`] tells.
///
/// # Errors
/// `NoSuchImage` exactly where there is no such image, and what `body_at` answers.
///
/// Whatever the answer, the shelf tells the same afterwards.
pub fn body_of<H: Shelf>(
    alloc: Global,
    base: &Tree<Held>,
    arch: Arch,
    image: &Image,
    shelf: &mut H,
) -> Result<Body, BodyErr>
    requires { ServesAll (H.serves shelf.old) base.now }
    ensures gives { ReadsImage (H.told shelf.old) (H.faults shelf.old) (H.faults shelf.new) base.now arch image.now result }
    ensures stays { H.stays shelf.old shelf.new }
    ensures count { H.faults shelf.old ≤ H.faults shelf.new }
{
    match image_at(alloc, base, arch, image)? {
        None => Err(BodyErr::NoSuchImage),
        Some(place) => body_at(alloc, base, place, shelf),
    }
}

/// The image at the place. Its release file is the first of `/etc/os-release` and `/usr/lib/os-release` that leads to a file
/// inside the image, as a host's own is; after os-release(5).
///
/// # Errors
/// The first of these:
///
/// - `NoSuchImage` exactly where the place leads to no directory, which is never so where `image_at` has told it.
/// - `NotPortable` exactly where the image has no release file.
/// - `BadRelease` with the first faulty line of its release file.
///
/// And while the file is read:
///
/// - `Shelf` where the shelf does not give its bytes, for the cause that it has: a fault only where its count rose, damage only
///   of that file.
/// - `OutOfMemory`.
///
/// Whatever the answer, the shelf tells the same afterwards.
pub fn body_at<H: Shelf>(
    alloc: Global,
    base: &Tree<Held>,
    place: Path,
    shelf: &mut H,
) -> Result<Body, BodyErr>
    requires { ServesAll (H.serves shelf.old) base.now }
    ensures gives { ReadsBody (H.told shelf.old) (H.faults shelf.old) (H.faults shelf.new) base.now place result }
    ensures stays { H.stays shelf.old shelf.new }
    ensures count { H.faults shelf.old ≤ H.faults shelf.new }
{
    match tree_at(alloc, base, &place)? {
        None => Err(BodyErr::NoSuchImage),
        Some(tree) => body_in(alloc, place, tree, shelf),
    }
}

// The image at the place that has this tree.
fn body_in<H: Shelf>(
    alloc: Global,
    place: Path,
    tree: Tree<Held>,
    shelf: &mut H,
) -> Result<Body, BodyErr>
    requires { ServesAll (H.serves shelf.old) tree }
    ensures gives { ReadsBodyOf (H.told shelf.old) (H.faults shelf.old) (H.faults shelf.new) place tree result }
    ensures stays { H.stays shelf.old shelf.new }
    ensures count { H.faults shelf.old ≤ H.faults shelf.new }
{
    match host_release(alloc, &tree, shelf)? {
        None => Err(BodyErr::NotPortable),
        Some(release) => Ok(Body {
            place,
            tree,
            release,
        }),
    }
}

/// The tree of the image at the place, copied; `None` exactly where this leads to no directory.
///
/// # Errors
/// `OutOfMemory`.
pub fn tree_at(
    alloc: Global,
    base: &Tree<Held>,
    place: &Path,
) -> Result<Option<Tree<Held>>, OutOfMemory>
    ensures { IfOk result (TreeAt base.now place.now) }
{
    // `pairs` says of the base that it is a tree.
    let _entries = base.pairs();
    match directory_at(alloc, base, &place.names())? {
        None => Ok(None),
        Some(directory) => Ok(Some(part_below(alloc, base, &directory)?)),
    }
}

// What the base has below the directory of these names, copied.
fn part_below(
    alloc: Global,
    base: &Tree<Held>,
    directory: &PathRef,
) -> Result<Tree<Held>, OutOfMemory>
    requires path { IsPath directory.now }
    requires directory { IsTrue (is_directory_or_root base.now directory.now) }
    ensures { IfOk result (λ tree. tree ≡ part directory.now base.now) }
{
    let path = Path::of_names(alloc, directory)?;
    match base.part(&path) {
        Ok(tree) => Ok(tree),
        Err(TreeErr::OutOfMemory) => Err(OutOfMemory),
        Err(TreeErr::Exists | TreeErr::NotDirectory | TreeErr::Limit | TreeErr::Path) => {
            unreachable!()
        }
    }
}
