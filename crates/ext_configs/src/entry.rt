// What an entry of a folder says of the configuration file of its name.
ghost use Rattle.std.specs.Prelude.{◌≡◌, ◌++◌, ◌∷◌, ℕ, List, [], IfOk};
ghost use Rattle.ext_walk.specs.Row.{Stands};
ghost use Rattle.ext_configs.specs.Kept.{EntryAt};

use crate::search::Search;
use ext_find::{Measured, content_of_path, is_hidden, is_mask};
use ext_text::OutOfMemory;
use ext_walk::Next;

// What an entry that counts says.
#[derive(Drop)]
pub enum ConfigEntry<'a, C> {
    // It is a mask: there is no file of this name.
    Mask,
    // It leads to a file, of whose bytes this is known.
    Content(&'a C),
}

// What the entry that stands at a name of a directory says, if it counts.
pub(crate) fn entry_at<'a, C: Measured>(
    search: &Search<'a, '_, C>,
    next: &Next<'a, C>,
) -> Result<Option<ConfigEntry<'a, C>>, OutOfMemory>
    requires { Stands search.now.base.now next.now }
    ensures { (directory : List (List ℕ)) → next.now.entry.now.0 ≡ directory ++ next.now.name.now ∷ []
        → IfOk result (EntryAt C.size search.now.base.now search.now.kind directory next.now.name.now) }
{
    if is_hidden(next.name) || !next.name.ends_with(search.kind.suffix()) {
        return Ok(None);
    }
    if is_mask(&next.entry.1) {
        return Ok(Some(ConfigEntry::Mask));
    }
    match content_of_path(search.alloc, search.base, &next.entry.0.names())? {
        None => Ok(None),
        Some(content) => Ok(Some(ConfigEntry::Content(content))),
    }
}
