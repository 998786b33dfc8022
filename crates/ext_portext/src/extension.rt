// Where an extension is.
ghost use Rattle.std.specs.Prelude.{◌≡◌, true, IfOk};
ghost use Rattle.std.specs.List.{find};
ghost use Rattle.std.specs.Option.{option_copied};
ghost use Rattle.ext_units.specs.ImageName.{last_name};
ghost use Rattle.ext_units.specs.declared.image.Image.TheVariants as images;
ghost use Rattle.ext_port.specs.Given.{IsAsked};
ghost use Rattle.ext_portext.specs.Extension.{is_extension_of, is_looked_into, kind_of_break};
ghost use Rattle.ext_portext.specs.Steps.{ExtensionPlace};

use ext_find::laws::there_is_one_found_list;
use ext_find::{BreakWhy, FoundItem, FoundKind, find, why_broken};
use ext_host::{Held, Host};
use ext_text::{Class, Name, OutOfMemory, Path};
use ext_tree::Tree;
use ext_units::{Image, last_name};
use ext_walk::directory_at;
use std::alloc::Global;

// The place of an extension, and why it cannot be used.
#[derive(Drop)]
pub struct Placed {
    // Where it is in the base.
    pub place: Path,
    // `None` where it can be used.
    pub broken: Option<BreakWhy>,
}

// Where the extension is; `None` exactly where there is none.
pub(crate) fn extension_at(
    alloc: Global,
    host: &Host,
    base: &Tree<Held>,
    image: &Image,
) -> Result<Option<Placed>, OutOfMemory>
    requires { IsAsked image.now }
    ensures { IfOk result (ExtensionPlace host.now base.now image.now) }
{
    match image {
        Image::Named(name) => extension_named(alloc, host, base, name),
        Image::At(path) => extension_of_path(alloc, host, base, path),
    }
}

// The place of the extension of this name.
fn extension_named(
    alloc: Global,
    host: &Host,
    base: &Tree<Held>,
    name: &Name,
) -> Result<Option<Placed>, OutOfMemory>
    ensures { IfOk result (ExtensionPlace host.now base.now (images.Named name.now)) }
{
    there_is_one_found_list::<Held>();
    let found = find(alloc, base, Class::Sysext, host.arch, &host.sysext_hier)?;
    match item_of(found.as_slice(), name) {
        None => Ok(None),
        Some(item) => Ok(Some(place_of_item(item)?)),
    }
}

// The first item that is an extension of this name.
fn item_of<'a>(items: &'a [FoundItem], name: &Name) -> Option<&'a FoundItem>
    ensures { option_copied result ≡ find (is_extension_of name.now) items.now }
{
    items.iter().find(|item| is_extension_of(item, name))
}

// Whether it is an extension of this name.
fn is_extension_of(item: &FoundItem, name: &Name) -> bool
    ensures { result ≡ is_extension_of name.now item.now }
{
    item.name.cmp(name).is_eq() && is_looked_into(item.kind)
}

// Whether it is an image in a directory.
fn is_looked_into(kind: FoundKind) -> bool
    ensures { result ≡ is_looked_into kind }
{
    match kind {
        FoundKind::Image | FoundKind::Broken(_) => true,
        FoundKind::Masked | FoundKind::Raw => false,
    }
}

// The place of the item, and why it cannot be used.
fn place_of_item(item: &FoundItem) -> Result<Placed, OutOfMemory>
    requires { is_looked_into item.now.kind ≡ true }
    ensures place { IfOk result (λ placed. placed.place ≡ item.now.place) }
    ensures kind { IfOk result (λ placed. item.now.kind ≡ kind_of_break placed.broken) }
{
    let place = item.place.copy()?;
    let broken = break_of(item.kind);
    Ok(Placed { place, broken })
}

// Why an image in a directory cannot be used.
fn break_of(kind: FoundKind) -> Option<BreakWhy>
    requires { is_looked_into kind ≡ true }
    ensures { kind ≡ kind_of_break result }
{
    match kind {
        FoundKind::Image => None,
        FoundKind::Broken(why) => Some(why),
        FoundKind::Masked => unreachable!(),
        FoundKind::Raw => unreachable!(),
    }
}

// The path, where it leads to a directory, and why what is below that cannot be used.
fn extension_of_path(
    alloc: Global,
    host: &Host,
    base: &Tree<Held>,
    path: &Path,
) -> Result<Option<Placed>, OutOfMemory>
    requires { IsAsked (images.At path.now) }
    ensures { IfOk result (ExtensionPlace host.now base.now (images.At path.now)) }
{
    match directory_at(alloc, base, &path.names())? {
        None => Ok(None),
        Some(directory) => {
            let name = name_of(alloc, path)?;
            let class = Class::Sysext;
            let broken = why_broken(alloc, base, &directory, class, &host.sysext_hier, &name)?;
            let place = path.copy()?;
            Ok(Some(Placed { place, broken }))
        }
    }
}

// The last name of a path, which is not the root, so that nothing but a lack of memory comes.
fn name_of(alloc: Global, path: &Path) -> Result<Name, OutOfMemory>
    ensures { IfOk result (λ name. name ≡ last_name path.now) }
{
    match Name::read(alloc, last_name(path)) {
        Ok(name) => Ok(name),
        Err(_) => Err(OutOfMemory),
    }
}
