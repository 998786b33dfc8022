// An image: where its place leads, and its release file.
ghost use Rattle.std.specs.Prelude.{⊤, Some, IfOk, MatchOption};
ghost use Rattle.ext_tree.specs.Tree.{lookup};
ghost use Rattle.ext_walk.specs.Walk.{Ends};
ghost use Rattle.ext_find.specs.HostRelease.{IsContent};
ghost use Rattle.ext_view.specs.Image.{IsContentThere, IsFileThere};
ghost use Rattle.ext_view.specs.Parts.{Leads};

use ext_host::Held;
use ext_text::{OutOfMemory, Path, PathRef};
use ext_tree::{Entry, Tree};
use ext_walk::end_of_path;
use std::alloc::Global;

// The release file of an image that can be used, where the search has found it.
pub(crate) fn release_file<'a>(base: &'a Tree<Held>, release: &Option<Path>) -> &'a Held
    requires { IsFileThere base.now release.now }
    ensures { IsContentThere base.now release.now result.now }
{
    match release {
        None => unreachable!(),
        Some(path) => match held_at(base, path) {
            None => unreachable!(),
            Some(held) => held,
        },
    }
}

// The file at the path; `None` exactly where none is.
fn held_at<'a>(base: &'a Tree<Held>, path: &Path) -> Option<&'a Held>
    ensures { IsContent (lookup base.now path.now) result }
{
    match base.get(path) {
        None => None,
        Some(entry) => held_of(entry),
    }
}

// The file that the entry is; `None` exactly where it is none.
fn held_of(entry: &Entry<Held>) -> Option<&Held>
    ensures { IsContent (Some entry.now) result }
{
    match entry {
        Entry::File(_, held) => Some(held),
        Entry::Dir(_) | Entry::Opaque(_) | Entry::Link(_, _) | Entry::Hide => None,
    }
}

/// The names of the directory to which the place of an image leads: what the base has below it is the image.
///
/// # Errors
/// `OutOfMemory` alone.
pub fn image_at<'a>(
    alloc: Global,
    base: &'a Tree<Held>,
    place: &Path,
) -> Result<PathRef<'a>, OutOfMemory>
    requires { Leads base.now place.now }
    ensures { IfOk result (λ image. Ends base.now place.now image) }
{
    match directory_itself(base, &place.names()) {
        Some(image) => Ok(image),
        None => end_of_links(alloc, base, place),
    }
}

// The names of the directory that stands at the place itself: nothing has to be followed, and one search finds it. `None` where
// none stands there.
fn directory_itself<'a>(base: &'a Tree<Held>, place: &PathRef) -> Option<PathRef<'a>>
    ensures { MatchOption result ⊤ (Ends base.now place.now) }
{
    let (directory, name) = place.split_last()?;
    let (path, entry) = base.child(&directory, name)?;
    if entry.is_directory() {
        Some(path.names())
    } else {
        None
    }
}

// The names of the directory to which the place leads, name by name.
fn end_of_links<'a>(
    alloc: Global,
    base: &'a Tree<Held>,
    place: &Path,
) -> Result<PathRef<'a>, OutOfMemory>
    requires { Leads base.now place.now }
    ensures { IfOk result (λ image. Ends base.now place.now image) }
{
    // `pairs` says of the tree that it is one.
    let _entries = base.pairs();
    match end_of_path(alloc, base, &PathRef::root(), &place.names())? {
        None => unreachable!(),
        Some(image) => Ok(image),
    }
}
