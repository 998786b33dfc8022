// The release file of the host itself.
ghost use Rattle.std.specs.Prelude.{◌≤◌, IfOk, IsTrue, Some};
ghost use Rattle.ext_tree.specs.Tree.{lookup};
ghost use Rattle.ext_walk.specs.Walk.{parts};
ghost use Rattle.ext_host.specs.Planning.{ServesAll};
ghost use Rattle.ext_find.specs.HostRelease.{ContentAt, IsContent, ReadsHeld, ReadsHost, ReleaseFileAt};

use ext_host::{Held, Shelf, ShelfErr};
use ext_release::{Release, ReleaseErr, read_release};
use ext_text::{OutOfMemory, PathRef};
use ext_tree::{Entry, Tree};
use ext_walk::{end_of_path, end_of_text};
use std::alloc::Global;
use thiserror::Error;

/// Why the host's release file is not read.
#[derive(Clone, Copy, Debug, PartialEq, Eq, Error)]
pub enum FindErr {
    /// An allocation failed.
    #[error("out of memory")]
    OutOfMemory,
    /// A line of the release file is faulty.
    #[error("line {line} of the host's release file is faulty")]
    BadHostRelease {
        /// The first line that is, counted from 1.
        line: u64,
    },
    /// The shelf did not give the file's bytes; never where memory ran out.
    #[error("the host's release file is not given")]
    Shelf(ShelfErr),
}

impl From<OutOfMemory> for FindErr {
    ghost use Rattle.std.specs.Prelude.{◌≡◌};
    ghost use Rattle.ext_find.specs.declared.release.FindErr.TheVariants as errors;

    ghost from_gives = { λ _ e. e ≡ errors.OutOfMemory };

    fn from(_failed: OutOfMemory) -> FindErr {
        FindErr::OutOfMemory
    }
}

impl From<ShelfErr> for FindErr {
    ghost use Rattle.std.specs.Prelude.{◌≡◌};
    ghost use Rattle.ext_find.specs.HostRelease.{find_err_of_shelf};

    ghost from_gives = { λ failed e. e ≡ find_err_of_shelf failed };

    fn from(failed: ShelfErr) -> FindErr {
        match failed {
            ShelfErr::OutOfMemory => FindErr::OutOfMemory,
            ShelfErr::Fault => FindErr::Shelf(failed),
            ShelfErr::Damaged(_) => FindErr::Shelf(failed),
        }
    }
}

impl From<ReleaseErr> for FindErr {
    ghost use Rattle.std.specs.Prelude.{◌≡◌};
    ghost use Rattle.ext_find.specs.HostRelease.{of_reader};

    ghost from_gives = { λ failed e. e ≡ of_reader failed };

    fn from(failed: ReleaseErr) -> FindErr {
        match failed {
            ReleaseErr::OutOfMemory => FindErr::OutOfMemory,
            ReleaseErr::BadRelease { line } => FindErr::BadHostRelease { line },
        }
    }
}

/// What the release file of a host assigns: the first of `/etc/os-release` and `/usr/lib/os-release` that leads to a file in
/// the base. `None` exactly where neither does. After os-release(5).
///
/// # Errors
/// - `BadHostRelease` with the first faulty line of that file.
/// - `Shelf` where the shelf does not give its bytes, for the cause that it has: a fault only where its count rose, damage
///   only of that file.
/// - `OutOfMemory`.
///
/// Whatever the answer, the shelf tells the same afterwards.
pub fn host_release<H: Shelf>(
    alloc: Global,
    base: &Tree<Held>,
    shelf: &mut H,
) -> Result<Option<Release>, FindErr>
    requires { ServesAll (H.serves shelf.old) base.now }
    ensures gives { ReadsHost base.now (H.told shelf.old) (H.faults shelf.old) (H.faults shelf.new) result }
    ensures stays { H.stays shelf.old shelf.new }
    ensures count { H.faults shelf.old ≤ H.faults shelf.new }
{
    match release_file(alloc, base)? {
        None => Ok(None),
        Some(held) => Ok(Some(read_held(alloc, held, shelf)?)),
    }
}

// What a held file assigns.
fn read_held<H: Shelf>(alloc: Global, held: &Held, shelf: &mut H) -> Result<Release, FindErr>
    requires { IsTrue (H.serves shelf.old held.now) }
    ensures reads { ReadsHeld (H.told shelf.old held.now) held.now (H.faults shelf.old) (H.faults shelf.new) result }
    ensures stays { H.stays shelf.old shelf.new }
    ensures count { H.faults shelf.old ≤ H.faults shelf.new }
{
    let text = shelf.bytes(alloc, held)?;
    Ok(read_release(alloc, text.bytes())?)
}

// What is known of the bytes of the host's release file.
fn release_file<C>(alloc: Global, base: &Tree<C>) -> Result<Option<&C>, OutOfMemory>
    ensures { IfOk result (ReleaseFileAt base.now) }
{
    match content_of(alloc, base, b"etc/os-release")? {
        Some(content) => Ok(Some(content)),
        None => content_of(alloc, base, b"usr/lib/os-release"),
    }
}

// What is known of the bytes of the file to which a text leads.
fn content_of<'a, C>(
    alloc: Global,
    base: &'a Tree<C>,
    text: &'a [u8],
) -> Result<Option<&'a C>, OutOfMemory>
    ensures { IfOk result (ContentAt base.now (parts text.now)) }
{
    let _entries = base.pairs();
    match end_of_text(alloc, base, &PathRef::root(), text)? {
        None => Ok(None),
        Some(end) => Ok(content_at(base, &end)),
    }
}

/// What is known of the bytes of the file to which the names lead from the base's root, once links are followed; `None`
/// exactly where they lead to no file.
///
/// # Errors
/// `OutOfMemory` alone.
pub fn content_of_path<'a: 'b, 'b, C>(
    alloc: Global,
    base: &'a Tree<C>,
    names: &PathRef<'b>,
) -> Result<Option<&'a C>, OutOfMemory>
    ensures { IfOk result (ContentAt base.now names.now) }
{
    let _entries = base.pairs();
    match end_of_path(alloc, base, &PathRef::root(), names)? {
        None => Ok(None),
        Some(end) => Ok(content_at(base, &end)),
    }
}

// What is known of the bytes of a file that stands there.
fn content_at<'a, C>(base: &'a Tree<C>, names: &PathRef) -> Option<&'a C>
    ensures { IsContent (lookup base.now names.now) result }
{
    match base.entry_at(names) {
        None => None,
        Some(entry) => content(entry),
    }
}

// What is known of the bytes of an entry that is a file.
fn content<C>(entry: &Entry<C>) -> Option<&C>
    ensures { IsContent (Some entry.now) result }
{
    match entry {
        Entry::File(_, content) => Some(content),
        Entry::Dir(_) | Entry::Opaque(_) | Entry::Link(_, _) | Entry::Hide => None,
    }
}
