// What a survey says of one found item.
ghost use Rattle.std.specs.Prelude.{◌≤◌, IfOk};
ghost use Rattle.ext_host.specs.Planning.{ServesAll};
ghost use Rattle.ext_view.specs.Image.{HasReleaseAt};
ghost use Rattle.ext_view.specs.Judging.{IsSound, ItemsAs, JudgesAs, KindsAs, WhereImage};
ghost use Rattle.ext_view.specs.Surveying.{MakesOf};

use crate::errors::ViewErr;
use crate::image::release_file;
use crate::surveyed::{SurveyItem, SurveyKind};
use ext_find::{FoundItem, FoundKind};
use ext_host::{Held, Host, Shelf};
use ext_match::judge;
use ext_release::{Release, ReleaseErr, read_release};
use ext_text::{Extension, Name, OutOfMemory, Path};
use ext_tree::Tree;
use std::alloc::Global;

// What images are judged by.
#[derive(Clone, Copy)]
pub(crate) struct Look<'a> {
    pub(crate) alloc: Global,
    pub(crate) host: &'a Host,
    pub(crate) base: &'a Tree<Held>,
    pub(crate) class: Extension,
    pub(crate) force: bool,
    pub(crate) release: &'a Release,
}

// What is said of a found item.
pub(crate) fn item_of<H: Shelf>(
    look: &Look,
    item: FoundItem,
    shelf: &mut H,
) -> Result<SurveyItem, ViewErr>
    requires sound { IsSound look.now.base.now look.now.class item }
    requires serves { ServesAll (H.serves shelf.old) look.now.base.now }
    ensures gives { ItemsAs (H.told shelf.old) (H.faults shelf.old) (H.faults shelf.new) look.now.host.now look.now.base.now
        look.now.class look.now.force look.now.release.now item result }
    ensures stays { H.stays shelf.old shelf.new }
    ensures count { H.faults shelf.old ≤ H.faults shelf.new }
{
    let FoundItem {
        name,
        place,
        kind,
        release,
    } = item;
    let kind = kind_of(look, &name, &place, kind, &release, shelf)?;
    Ok(SurveyItem { name, place, kind })
}

// What is said of an item of this name and kind.
fn kind_of<H: Shelf>(
    look: &Look,
    name: &Name,
    place: &Path,
    kind: FoundKind,
    release: &Option<Path>,
    shelf: &mut H,
) -> Result<SurveyKind, ViewErr>
    requires leads { WhereImage kind (HasReleaseAt look.now.base.now look.now.class place.now name.now release.now) }
    requires serves { ServesAll (H.serves shelf.old) look.now.base.now }
    ensures gives { KindsAs (H.told shelf.old) (H.faults shelf.old) (H.faults shelf.new) look.now.host.now look.now.base.now
        look.now.class look.now.force look.now.release.now place.now name.now kind result }
    ensures stays { H.stays shelf.old shelf.new }
    ensures count { H.faults shelf.old ≤ H.faults shelf.new }
{
    match kind {
        FoundKind::Masked => Ok(SurveyKind::Masked),
        FoundKind::Raw => Ok(SurveyKind::Raw),
        FoundKind::Broken(why) => Ok(SurveyKind::Broken(why)),
        FoundKind::Image => judged(look, name, place, release, shelf),
    }
}

// What is said of an image that can be used, by its release file.
fn judged<H: Shelf>(
    look: &Look,
    name: &Name,
    place: &Path,
    release: &Option<Path>,
    shelf: &mut H,
) -> Result<SurveyKind, ViewErr>
    requires leads { HasReleaseAt look.now.base.now look.now.class place.now name.now release.now }
    requires serves { ServesAll (H.serves shelf.old) look.now.base.now }
    ensures gives { JudgesAs (H.told shelf.old) (H.faults shelf.old) (H.faults shelf.new) look.now.host.now
        look.now.base.now look.now.class look.now.force look.now.release.now place.now name.now result }
    ensures stays { H.stays shelf.old shelf.new }
    ensures count { H.faults shelf.old ≤ H.faults shelf.new }
{
    let held = release_file(look.base, release);
    let text = shelf.bytes(look.alloc, held)?;
    Ok(made_of(look, text.bytes())?)
}

// What the bytes of its release file make of an image.
fn made_of(look: &Look, bytes: &[u8]) -> Result<SurveyKind, OutOfMemory>
    ensures { IfOk result (MakesOf look.now.release.now look.now.host.now look.now.class look.now.force bytes.now) }
{
    match read_release(look.alloc, bytes) {
        Ok(own) => Ok(SurveyKind::Image(judge(
            look.release,
            &own,
            look.class,
            look.host.scope,
            look.host.arch,
            look.force,
        ))),
        Err(ReleaseErr::BadRelease { line }) => Ok(SurveyKind::BadRelease { line }),
        Err(ReleaseErr::OutOfMemory) => Err(OutOfMemory),
    }
}
