// Where paths and texts of names lead.
ghost use Rattle.std.specs.Prelude.{◌≡◌, ◌++◌, [], IfOk};
ghost use Rattle.ext_tree.specs.Part.{part};
ghost use Rattle.ext_walk.specs.Walk.{Resolves, ResolvesIn, parts};

use crate::parts::{push_names, push_parts};
use crate::walking::walk_end;
use ext_lines::OutOfMemory;
use ext_text::{Path, PathRef};
use ext_tree::Tree;
use std::alloc::Global;

/// The end of the walk along the path from the tree's root: the root, or the path of an entry that is no link. `None`
/// exactly where the walk has no end: a name is absent, `..` or a name stands after a file, or a 41st link is met.
///
/// # Errors
/// `OutOfMemory` alone.
pub fn resolve<C>(alloc: Global, tree: &Tree<C>, path: &Path) -> Result<Option<Path>, OutOfMemory>
    ensures { IfOk result (Resolves tree.now path.now) }
{
    // `pairs` says of the tree that its entries are at paths, within their limits.
    let _entries = tree.pairs();
    match end_of_path(alloc, tree, &PathRef::root(), &path.names())? {
        None => Ok(None),
        Some(end) => Ok(Some(Path::of_names(alloc, &end)?)),
    }
}

/// The end of the walk along the names inside an image, the part of the tree below a directory, as the names of the
/// entry's own path in the tree. Where the end is its root they are the image's own names. `None` exactly where there
/// is no end.
///
/// # Errors
/// `OutOfMemory` alone.
pub fn end_of_path<'a: 'b, 'b, C>(
    alloc: Global,
    tree: &'a Tree<C>,
    image: &PathRef<'a>,
    names: &PathRef<'b>,
) -> Result<Option<PathRef<'a>>, OutOfMemory>
    ensures { IfOk result (ResolvesIn tree.now image.now names.now) }
{
    let mut left = Vec::new(alloc);
    push_names(&mut left, names)?;
    walk_end(tree, image, left)
}

/// The same along the parts of a text between its slashes, which need be no names: a walk from the image's root, also
/// where the text begins with a slash.
///
/// # Errors
/// `OutOfMemory` alone.
pub fn end_of_text<'a: 'b, 'b, C>(
    alloc: Global,
    tree: &'a Tree<C>,
    image: &PathRef<'a>,
    text: &'b [u8],
) -> Result<Option<PathRef<'a>>, OutOfMemory>
    ensures { IfOk result (ResolvesIn tree.now image.now (parts text.now)) }
{
    let mut left = Vec::new(alloc);
    push_parts(&mut left, text)?;
    walk_end(tree, image, left)
}
