// Images of portable services, and where they are.
ghost use Rattle.std.specs.Prelude.{◌≡◌, IfOk};
ghost use Rattle.std.specs.List.{find};
ghost use Rattle.std.specs.Option.{IfSome, option_copied};
ghost use Rattle.ext_text.specs.declared.arch.Arch.{Arch};
ghost use Rattle.ext_walk.specs.Leads.{LeadsToDirectory};
ghost use Rattle.ext_units.specs.Image.{ImagePlace, is_image_of};
ghost use Rattle.ext_units.specs.ImageName.{image_name};
ghost use Rattle.ext_units.specs.declared.image.Image.TheVariants as images;

use crate::image_name::last_name;
use ext_find::laws::there_is_one_found_list;
use ext_find::{FoundItem, FoundKind, find};
use ext_host::Held;
use ext_text::{Arch, Class, Name, Names, OutOfMemory, Path};
use ext_tree::Tree;
use ext_walk::directory_at;
use std::alloc::Global;

/// Which image of a portable service is meant.
#[derive(Drop)]
pub enum Image {
    /// The one of this name that a search for images of portable services finds.
    Named(Name),
    /// The directory to which this path leads.
    At(Path),
}

impl Image {
    /// Its name: the one that is given, or the last of its path.
    pub fn name(&self) -> &[u8]
        ensures { result.now ≡ image_name self.now }
    {
        match self {
            Image::Named(name) => name.bytes(),
            Image::At(path) => last_name(path),
        }
    }
}

/// Where an image is in the base: the place that [`find`] tells of an image of portable services of this name, or the path
/// itself where it leads to a directory. `None` exactly where there is no such image; a mask, and an image in a file, is none.
///
/// After portablectl(1).
///
/// # Errors
/// `OutOfMemory` alone.
pub fn image_at(
    alloc: Global,
    base: &Tree<Held>,
    arch: Arch,
    image: &Image,
) -> Result<Option<Path>, OutOfMemory>
    ensures place { IfOk result (ImagePlace base.now arch image.now) }
    // The place leads to the image.
    ensures leads { IfOk result (λ place. IfSome place (LeadsToDirectory base.now)) }
{
    match image {
        Image::Named(name) => place_named(alloc, base, arch, name),
        Image::At(path) => place_of_path(alloc, base, path),
    }
}

// The place of the image of this name.
fn place_named(
    alloc: Global,
    base: &Tree<Held>,
    arch: Arch,
    name: &Name,
) -> Result<Option<Path>, OutOfMemory>
    ensures place { IfOk result (ImagePlace base.now arch (images.Named name.now)) }
    ensures leads { IfOk result (λ place. IfSome place (LeadsToDirectory base.now)) }
{
    there_is_one_found_list::<Held>();
    let found = find(alloc, base, Class::Portable, arch, &Names::new(alloc))?;
    match item_of(found.as_slice(), name) {
        None => Ok(None),
        Some(item) => Ok(Some(item.place.copy()?)),
    }
}

// The first item that is an image of this name.
fn item_of<'a>(items: &'a [FoundItem], name: &Name) -> Option<&'a FoundItem>
    ensures { option_copied result ≡ find (is_image_of name.now) items.now }
{
    items.iter().find(|item| is_image_of(item, name))
}

// Whether it is an image of this name.
fn is_image_of(item: &FoundItem, name: &Name) -> bool
    ensures { result ≡ is_image_of name.now item.now }
{
    item.name.cmp(name).is_eq() && matches!(item.kind, FoundKind::Image)
}

// The path, where it leads to a directory.
fn place_of_path(alloc: Global, base: &Tree<Held>, path: &Path) -> Result<Option<Path>, OutOfMemory>
    ensures place { (arch : Arch) → IfOk result (ImagePlace base.now arch (images.At path.now)) }
    ensures leads { IfOk result (λ place. IfSome place (LeadsToDirectory base.now)) }
{
    match directory_at(alloc, base, &path.names())? {
        None => Ok(None),
        Some(_directory) => Ok(Some(path.copy()?)),
    }
}
