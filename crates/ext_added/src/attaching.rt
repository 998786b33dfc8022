// What an attachment is made of.
ghost use Rattle.std.specs.Prelude.{◌≡◌, ◌||◌, codes, IfOk};
ghost use Rattle.std.specs.Option.{option_copied};
ghost use Rattle.std.specs.Ordering.{eq_by_cmp};
ghost use Rattle.ext_lines.specs.ByteOrder.{bytes_cmp};
ghost use Rattle.ext_walk.specs.Leads.{LeadsToDirectory};
ghost use Rattle.ext_added.specs.Attaching.{IsAttaching, IsDirectoryOf, directory_attributes, is_outside, is_searched, shown_for};

use crate::ask::{Ask, CopyMode};
use crate::drop_in::own_file;
use crate::image::{copies_images, image_top};
use crate::profile::Profile;
use ext_attributes::Attributes;
use ext_host::Held;
use ext_text::{Mode, OutOfMemory, Path};
use ext_tree::{Entry, Tree};
use ext_units::{Body, Image, Units};
use ext_walk::directory_at;
use std::alloc::Global;

// The mode of the root.
const ROOT_MODE: u16 = 0o755;

/// What an attachment is made of.
#[derive(Drop)]
pub struct Attaching {
    /// Whether it lasts until the host stops.
    pub runtime: bool,
    /// What is copied.
    pub copy: CopyMode,
    /// Where the image is in the base.
    pub place: Path,
    /// Whether that is outside the directories in which images are looked for.
    pub outside: bool,
    /// The directory to which the place leads.
    pub directory: Path,
    /// The attributes of that directory.
    pub attributes: Attributes,
    /// The profile.
    pub profile: Profile,
    /// The file of the drop-in that tells a service its image.
    pub own: Held,
    /// The units.
    pub units: Units,
}

// The directory to which a place leads.
#[derive(Drop)]
pub struct ImageDirectory {
    // Its path.
    pub path: Path,
    // Its attributes.
    pub attributes: Attributes,
}

/// What is made of an ask, the image in the base that it is about, the units and the profile that it has, and further lines for each
/// drop-in.
///
/// # Errors
/// `OutOfMemory` alone.
pub fn attaching_of(
    alloc: Global,
    base: &Tree<Held>,
    ask: &Ask,
    body: &Body,
    units: Units,
    profile: Profile,
    lines: &[u8],
) -> Result<Attaching, OutOfMemory>
    requires { LeadsToDirectory base.now body.now.place }
    ensures { IfOk result (IsAttaching base.now ask.now body.now units profile lines.now) }
{
    let directory = directory_of(alloc, base, &body.place)?;
    let outside = is_outside(&ask.image);
    let shown = shown_for(alloc, ask.runtime, ask.copy, outside, &body.place)?;
    let own = own_file(alloc, &body.place, &shown, lines)?;
    let place = body.place.copy()?;
    Ok(Attaching {
        runtime: ask.runtime,
        copy: ask.copy,
        place,
        outside,
        directory: directory.path,
        attributes: directory.attributes,
        profile,
        own,
        units,
    })
}

// The directory to which the place leads.
fn directory_of(
    alloc: Global,
    base: &Tree<Held>,
    place: &Path,
) -> Result<ImageDirectory, OutOfMemory>
    requires { LeadsToDirectory base.now place.now }
    ensures { IfOk result (IsDirectoryOf base.now place.now) }
{
    // `pairs` says of the base that it is a tree.
    let _entries = base.pairs();
    match directory_at(alloc, base, &place.names())? {
        None => unreachable!(),
        Some(end) => {
            let attributes = directory_attributes(base.entry_at(&end));
            let path = Path::of_names(alloc, &end)?;
            Ok(ImageDirectory { path, attributes })
        }
    }
}

// The attributes of a directory, or of the root where there is no entry.
fn directory_attributes(entry: Option<&Entry<Held>>) -> Attributes
    ensures { result ≡ directory_attributes (option_copied entry.entry) }
{
    match entry {
        Some(Entry::Dir(attributes)) => *attributes,
        Some(Entry::Opaque(attributes)) => *attributes,
        Some(Entry::File(_, _)) | Some(Entry::Link(_, _)) | Some(Entry::Hide) | None => {
            Attributes::of_mode(root_mode())
        }
    }
}

// The mode of the root.
fn root_mode() -> Mode
    ensures { result ≡ ROOT_MODE }
{
    match Mode::new(ROOT_MODE) {
        Some(mode) => mode,
        None => unreachable!(),
    }
}

// The path at which an image is shown.
fn shown_for(
    alloc: Global,
    runtime: bool,
    copy: CopyMode,
    outside: bool,
    place: &Path,
) -> Result<Path, OutOfMemory>
    ensures { IfOk result (λ path. path ≡ shown_for runtime copy outside place.now) }
{
    if outside && copies_images(copy) {
        image_top(alloc, runtime, place)
    } else {
        place.copy()
    }
}

// Whether the image is named by a path outside the directories in which images are looked for.
fn is_outside(image: &Image) -> bool
    ensures { result ≡ is_outside image.now }
{
    match image {
        Image::Named(_) => false,
        Image::At(path) => !is_searched(path.parent().text()),
    }
}

// Whether the text is that of a directory in which images are looked for.
fn is_searched(text: &[u8]) -> bool
    ensures { result ≡ is_searched text.now }
{
    is_text(text, b"etc/portables") || is_text(text, b"run/portables") || is_searched_later(text)
}

// Whether it is that of one of the last three of these directories.
fn is_searched_later(text: &[u8]) -> bool
    ensures { result ≡ eq_by_cmp bytes_cmp text.now (codes "var/lib/portables")
        || eq_by_cmp bytes_cmp text.now (codes "usr/local/lib/portables")
        || eq_by_cmp bytes_cmp text.now (codes "usr/lib/portables") }
{
    is_text(text, b"var/lib/portables")
        || is_text(text, b"usr/local/lib/portables")
        || is_text(text, b"usr/lib/portables")
}

// Whether both are the same.
fn is_text(text: &[u8], other: &[u8]) -> bool
    ensures { result ≡ eq_by_cmp bytes_cmp text.now other.now }
{
    text.cmp(other).is_eq()
}
