// Walks name by name. A walk stands at an entry of an image, or at the image's root; where it stands is known by the names
// of the entry's own path, which begin with the image's.
ghost use Rattle.std.specs.Prelude.{◌≡◌, ◌++◌, List, ℕ, nat_le, true, false, if◌then◌else◌, IfOk};
ghost use Rattle.ext_walk.specs.Steps.{Stops, Turns, TurnsTo};
ghost use Rattle.ext_walk.specs.Upcoming.{upcoming};
ghost use Rattle.ext_walk.specs.Walk.{ResolvesIn, is_absolute, is_idle, is_up, most_links};

use crate::parts::push_parts;
use ext_lines::OutOfMemory;
use ext_text::{Path, PathRef};
use ext_tree::{Entry, Tree};

// The most links of a walk.
const MOST_LINKS: usize = 40;

// What one name does.
pub enum Turn<'a> {
    // The walk stands there now.
    Moved(PathRef<'a>),
    // A link with this target stands at the name.
    Met(&'a [u8]),
    // No step leads on.
    Barred,
}

// Where a walk stops.
pub enum Stop<'a> {
    // No name is left.
    Done(PathRef<'a>),
    // A link with this target stands at a name of what stands here.
    Into(PathRef<'a>, &'a [u8]),
    // No step leads on.
    Nowhere,
}

// The end of the walk along the names that are left.
pub(crate) fn walk_end<'a: 'b, 'b, C>(
    tree: &'a Tree<C>,
    image: &PathRef<'a>,
    names: Vec<&'b [u8]>,
) -> Result<Option<PathRef<'a>>, OutOfMemory>
    ensures { IfOk result (ResolvesIn tree.now image.now (upcoming names.entry.items)) }
{
    let mut left = names;
    let mut at = image.again();
    let mut links = 0;
    'links: loop {
        match to_link(tree, image, &at, &mut left) {
            Stop::Done(end) => return Ok(Some(end)),
            Stop::Nowhere => return Ok(None),
            Stop::Into(from, target) => {
                if are_most(links) {
                    return Ok(None);
                }
                push_parts(&mut left, target)?;
                at = start_of(target, image, &from);
                links += 1;
            }
        }
    }
}

// Goes along the names that are left, to the end or to the next link.
fn to_link<'a, 'b, C>(
    tree: &'a Tree<C>,
    image: &PathRef<'a>,
    from: &PathRef<'a>,
    left: &mut Vec<&'b [u8]>,
) -> Stop<'a>
    ensures { (at : List (List ℕ)) → from.now ≡ image.now ++ at → Stops tree.now image.now at (upcoming
        left.old.items) (upcoming left.new.items) result }
{
    let mut here = from.again();
    'names: loop {
        match left.pop() {
            None => return Stop::Done(here),
            Some(name) => match turn_at(tree, image, &here, name) {
                Turn::Moved(next) => here = next,
                Turn::Met(target) => return Stop::Into(here, target),
                Turn::Barred => return Stop::Nowhere,
            },
        }
    }
}

// What the name does where the walk stands.
fn turn_at<'a, C>(tree: &'a Tree<C>, image: &PathRef, here: &PathRef<'a>, name: &[u8]) -> Turn<'a>
    ensures { (at : List (List ℕ)) → here.now ≡ image.now ++ at → Turns tree.now image.now at name.now result }
{
    if is_idle(name) {
        Turn::Moved(here.again())
    } else if is_up(name) {
        turn_up(tree, image, here)
    } else {
        turn_into(tree, here, name)
    }
}

// What `..` does: at the image's root the walk stays.
fn turn_up<'a, C>(tree: &Tree<C>, image: &PathRef, here: &PathRef<'a>) -> Turn<'a>
    ensures { (at : List (List ℕ)) (name : List ℕ) → here.now ≡ image.now ++ at → is_idle name ≡ false → is_up name ≡ true
        → Turns tree.now image.now at name result }
{
    if here.depth() <= image.depth() {
        Turn::Moved(here.again())
    } else if tree.is_directory_or_root(here) {
        Turn::Moved(here.parent())
    } else {
        Turn::Barred
    }
}

// What a name other than `..` does, by what stands there.
fn turn_into<'a, C>(tree: &'a Tree<C>, here: &PathRef, name: &[u8]) -> Turn<'a>
    requires plain { is_idle name.now ≡ false }
    requires below { is_up name.now ≡ false }
    ensures { (image at : List (List ℕ)) → here.now ≡ image ++ at → Turns tree.now image at name.now result }
{
    match tree.child(here, name) {
        None => Turn::Barred,
        Some((path, entry)) => turn_to(path, entry),
    }
}

// What an entry at the name does.
fn turn_to<'a, C>(path: &'a Path, entry: &'a Entry<C>) -> Turn<'a>
    ensures { TurnsTo path.now entry.now result }
{
    match entry {
        Entry::Dir(_) | Entry::Opaque(_) | Entry::File(_, _) => Turn::Moved(path.names()),
        Entry::Link(_, target) => Turn::Met(target.bytes()),
        Entry::Hide => Turn::Barred,
    }
}

// Whether a walk has followed as many links as it may.
fn are_most(links: usize) -> bool
    ensures { result ≡ nat_le most_links links }
{
    links >= MOST_LINKS
}

// Whether it is an empty name or `.`.
fn is_idle(name: &[u8]) -> bool
    ensures { result ≡ is_idle name.now }
{
    match name {
        [] => true,
        [byte] => *byte == b'.',
        [_first, _second, ..] => false,
    }
}

// Whether it is `..`.
fn is_up(name: &[u8]) -> bool
    ensures { result ≡ is_up name.now }
{
    match name {
        [] => false,
        [_first] => false,
        [first, second] => *first == b'.' && *second == b'.',
        [_first, _second, _third, ..] => false,
    }
}

// Where the walk goes on with a link's target: at the image's root where it is absolute.
fn start_of<'a>(target: &[u8], image: &PathRef<'a>, from: &PathRef<'a>) -> PathRef<'a>
    ensures { result ≡ (if is_absolute target.now then image.now else from.now) }
{
    if is_absolute(target) {
        image.again()
    } else {
        from.again()
    }
}

// Whether a walk along the text begins at the root.
fn is_absolute(text: &[u8]) -> bool
    ensures { result ≡ is_absolute text.now }
{
    match text {
        [] => false,
        [first, ..] => *first == b'/',
    }
}
