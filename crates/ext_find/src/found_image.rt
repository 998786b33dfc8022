// Where an image or a mask is, and what it is.
ghost use Rattle.std.specs.Prelude.{◌≡◌, ℕ, List, IsTrue, IfOk};
ghost use Rattle.ext_tree.specs.Part.{part};
ghost use Rattle.ext_tree.specs.Tree.{is_directory, is_directory_or_root};
ghost use Rattle.ext_walk.specs.Row.{Stands};
ghost use Rattle.ext_walk.specs.Walk.{Ends};
ghost use Rattle.ext_find.specs.Ending.{stem_of};
ghost use Rattle.ext_find.specs.Usable.{CheckAt, FoundImageAt, ImageAt, IsBelow, IsCheck, IsMaskAt, IsRawAt, PickedAt, found_image_of};

use crate::content::{Measured, is_mask};
use crate::ending::{Ending, ending_of};
use crate::found::FoundKind;
use crate::image::{ImageCheck, check_inside};
use crate::inside::Inside;
use crate::leading::leads_to_full;
use crate::pick::pick;
use crate::search::Search;
use ext_text::{Name, NameErr, OutOfMemory, Path, PathErr, PathRef};
use ext_walk::{Next, directory_at};
use std::alloc::Global;

// A place in the base, what is there, and where the release file of an image that can be used is.
#[derive(Drop)]
pub struct FoundImage {
    pub(crate) place: Path,
    pub(crate) kind: FoundKind,
    pub(crate) release: Option<Path>,
}

// What the entry that stands at a name gives. The stem is that of the name.
pub(crate) fn found_image_at<'a, C: Measured>(
    search: &Search<'a, C>,
    next: &Next<'a, C>,
    stem: &Name,
) -> Result<Option<FoundImage>, OutOfMemory>
    requires stands { Stands search.now.base.now next.now }
    requires stem { stem.now ≡ stem_of next.now.name.now }
    ensures { IfOk result (FoundImageAt C.size search.now.base.now search.now.class search.now.arch
        search.now.hierarchies.now next.now.entry.now.0 next.now.name.now) }
{
    let (path, entry) = next.entry;
    if is_mask(entry) {
        return mask_at(path);
    }
    match ending_of(next.name) {
        Ending::Plain => plain_at(search, next, stem),
        Ending::DotRaw => raw_at(
            path,
            leads_to_full(search.alloc, search.base, &path.names())?,
        ),
        Ending::DotV => picked(search, path, stem),
        Ending::DotRawV => {
            let directory = directory_at(search.alloc, search.base, &path.names())?;
            raw_at(path, directory.is_some())
        }
    }
}

// A mask at the path.
fn mask_at(path: &Path) -> Result<Option<FoundImage>, OutOfMemory>
    ensures { IfOk result (IsMaskAt path.now) }
{
    let kind = FoundKind::Masked;
    // `names` says of the path that it is within its limits.
    let _names = path.names();
    let place = path.copy()?;
    Ok(Some(FoundImage {
        place,
        kind,
        release: None,
    }))
}

// An image in a file at the path, where this leads to one.
fn raw_at(path: &Path, leads: bool) -> Result<Option<FoundImage>, OutOfMemory>
    ensures { IfOk result (IsRawAt path.now leads) }
{
    if !leads {
        return Ok(None);
    }
    let kind = FoundKind::Raw;
    let _names = path.names();
    let place = path.copy()?;
    Ok(Some(FoundImage {
        place,
        kind,
        release: None,
    }))
}

// The image of the version that is picked below the path.
fn picked<C: Measured>(
    search: &Search<C>,
    path: &Path,
    stem: &Name,
) -> Result<Option<FoundImage>, OutOfMemory>
    ensures { IfOk result (PickedAt C.size search.now.base.now search.now.class search.now.arch search.now.hierarchies.now
        path.now stem.now) }
{
    let _entries = search.base.pairs();
    match directory_at(search.alloc, search.base, &path.names())? {
        None => Ok(None),
        Some(directory) => picked_in(search, path, &directory, stem),
    }
}

// The image that is picked of the directory to which the path leads.
fn picked_in<C: Measured>(
    search: &Search<C>,
    path: &Path,
    directory: &PathRef,
    stem: &Name,
) -> Result<Option<FoundImage>, OutOfMemory>
    requires { Ends search.now.base.now path.now directory.now }
    ensures { IfOk result (PickedAt C.size search.now.base.now search.now.class search.now.arch search.now.hierarchies.now
        path.now stem.now) }
{
    let name = pick(
        search.alloc,
        search.base,
        search.arch,
        path,
        directory,
        stem.bytes(),
    )?;
    match name {
        None => Ok(None),
        Some(name) => match below(search.alloc, path, name)? {
            None => Ok(None),
            Some(place) => image_at(search, place, stem),
        },
    }
}

// The path of the name of these bytes below the path; `None` exactly where they are no name, or it is past the limits.
fn below(alloc: Global, path: &Path, name: &[u8]) -> Result<Option<Path>, OutOfMemory>
    ensures { IfOk result (IsBelow path.now name.now) }
{
    match Name::read(alloc, name) {
        Ok(name) => child(path, &name),
        Err(NameErr::OutOfMemory) => Err(OutOfMemory),
        Err(NameErr::BadName) => Ok(None),
    }
}

// The path of the name below the path; `None` exactly where it is past the limits.
fn child(path: &Path, name: &Name) -> Result<Option<Path>, OutOfMemory>
    ensures { IfOk result (IsBelow path.now name.now) }
{
    match path.child(name) {
        Ok(place) => Ok(Some(place)),
        Err(PathErr::OutOfMemory) => Err(OutOfMemory),
        Err(PathErr::TooLong) => Ok(None),
        Err(PathErr::TooDeep) => Ok(None),
        Err(PathErr::BadName) => Ok(None),
    }
}

// The image at the entry that stands at a name, where it leads to a directory.
fn plain_at<'a, C: Measured>(
    search: &Search<'a, C>,
    next: &Next<'a, C>,
    stem: &Name,
) -> Result<Option<FoundImage>, OutOfMemory>
    requires { Stands search.now.base.now next.now }
    ensures { IfOk result (ImageAt C.size search.now.base.now search.now.class search.now.arch search.now.hierarchies.now
        next.now.entry.now.0 stem.now) }
{
    let (path, entry) = next.entry;
    if entry.is_directory() {
        directory_image_at(search, next, stem)
    } else {
        image_at(search, path.copy()?, stem)
    }
}

// The image at a directory that stands at a name: nothing has to be looked for.
fn directory_image_at<'a, C: Measured>(
    search: &Search<'a, C>,
    next: &Next<'a, C>,
    stem: &Name,
) -> Result<Option<FoundImage>, OutOfMemory>
    requires stands { Stands search.now.base.now next.now }
    requires directory { IsTrue (is_directory next.now.entry.now.1) }
    ensures { IfOk result (ImageAt C.size search.now.base.now search.now.class search.now.arch search.now.hierarchies.now
        next.now.entry.now.0 stem.now) }
{
    // `pairs` says of the base that it is a tree.
    let _entries = search.base.pairs();
    let (path, _entry) = next.entry;
    let inside = Inside::new(next.inside, path.depth());
    let place = path.copy()?;
    let check = check_of_image(search, &path.names(), &inside, stem)?;
    Ok(Some(found_image_of(place, check)))
}

// The image at the place, where this leads to a directory.
fn image_at<C: Measured>(
    search: &Search<C>,
    place: Path,
    stem: &Name,
) -> Result<Option<FoundImage>, OutOfMemory>
    ensures { IfOk result (ImageAt C.size search.now.base.now search.now.class search.now.arch search.now.hierarchies.now place stem.now) }
{
    match check_at(search, &place.names(), stem)? {
        None => Ok(None),
        Some(check) => Ok(Some(found_image_of(place, check))),
    }
}

// What a look into the image at the place says, where this leads to a directory.
fn check_at<C: Measured>(
    search: &Search<C>,
    place: &PathRef,
    stem: &Name,
) -> Result<Option<ImageCheck>, OutOfMemory>
    ensures { IfOk result (CheckAt C.size search.now.base.now search.now.class search.now.arch search.now.hierarchies.now
        place.now stem.now) }
{
    match directory_at(search.alloc, search.base, place)? {
        None => Ok(None),
        Some(image) => {
            let inside = Inside::of(search.base, &image);
            Ok(Some(check_of_image(search, &image, &inside, stem)?))
        }
    }
}

// What a look into the image says; what the image has is known.
fn check_of_image<'a, C: Measured>(
    search: &Search<'a, C>,
    image: &PathRef<'a>,
    inside: &Inside<C>,
    stem: &Name,
) -> Result<ImageCheck, OutOfMemory>
    requires { inside.now ≡ part image.now search.now.base.now }
    ensures { (place : List (List ℕ)) → Ends search.now.base.now place image.now
        → IsTrue (is_directory_or_root search.now.base.now image.now) → IfOk result (IsCheck C.size search.now.base.now
        search.now.class search.now.arch search.now.hierarchies.now place stem.now) }
{
    check_inside(
        search.alloc,
        search.base,
        image,
        inside,
        search.class,
        search.hierarchies,
        stem,
    )
}

// What is found at the place, by what a look into the image says.
fn found_image_of(place: Path, check: ImageCheck) -> FoundImage
    ensures { result ≡ found_image_of place check }
{
    match check {
        ImageCheck::Usable(release) => FoundImage {
            place,
            kind: FoundKind::Image,
            release,
        },
        ImageCheck::Broken(why) => FoundImage {
            place,
            kind: FoundKind::Broken(why),
            release: None,
        },
    }
}
