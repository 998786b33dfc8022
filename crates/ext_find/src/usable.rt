// Which item an entry of a search directory gives.
ghost use Rattle.std.specs.Prelude.{◌≡◌, ◌++◌, ◌∷◌, ℕ, List, [], IfOk};
ghost use Rattle.std.specs.Option.{option_map};
ghost use Rattle.ext_walk.specs.Row.{Stands};
ghost use Rattle.ext_find.specs.Usable.{IsStem, UsableAt, item_with};

use crate::content::Measured;
use crate::ending::{is_hidden, stem_of};
use crate::found::FoundItem;
use crate::found_image::{FoundImage, found_image_at};
use crate::search::Search;
use ext_text::{Name, NameErr, OutOfMemory};
use ext_walk::Next;
use std::alloc::Global;

// What the entry that stands at a name of a directory gives.
pub(crate) fn usable_at<'a, C: Measured>(
    search: &Search<'a, C>,
    next: &Next<'a, C>,
) -> Result<Option<FoundItem>, OutOfMemory>
    requires { Stands search.now.base.now next.now }
    ensures { (directory : List (List ℕ)) → next.now.entry.now.0 ≡ directory ++ next.now.name.now ∷ []
        → IfOk result (UsableAt C.size search.now.base.now search.now.class search.now.arch search.now.hierarchies.now
        directory next.now.name.now) }
{
    if is_hidden(next.name) {
        return Ok(None);
    }
    match stem_name(search.alloc, next.name)? {
        None => Ok(None),
        Some(stem) => {
            let found_image = found_image_at(search, next, &stem)?;
            Ok(item_of(stem, found_image))
        }
    }
}

// The stem of a name; `None` exactly where that is no name.
fn stem_name(alloc: Global, name: &[u8]) -> Result<Option<Name>, OutOfMemory>
    ensures { IfOk result (IsStem name.now) }
{
    match Name::read(alloc, stem_of(name)) {
        Ok(stem) => Ok(Some(stem)),
        Err(NameErr::OutOfMemory) => Err(OutOfMemory),
        Err(NameErr::BadName) => Ok(None),
    }
}

// The item of this name.
fn item_of(name: Name, found_image: Option<FoundImage>) -> Option<FoundItem>
    ensures { result ≡ option_map (item_with name) found_image }
{
    match found_image {
        None => None,
        Some(
            FoundImage {
                place,
                kind,
                release,
            },
        ) => Some(FoundItem {
            name,
            place,
            kind,
            release,
        }),
    }
}
