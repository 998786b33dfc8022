// Whether an extension fits.
ghost use Rattle.std.specs.Prelude.{◌≡◌, ◌≤◌, IfOk};
ghost use Rattle.ext_tree.specs.Tree.{lookup};
ghost use Rattle.ext_walk.specs.Leads.{LeadsTo};
ghost use Rattle.ext_walk.specs.Walk.{parts};
ghost use Rattle.ext_host.specs.Planning.{ServesAll};
ghost use Rattle.ext_find.specs.Content.{is_file_at};
ghost use Rattle.ext_find.specs.HostRelease.{ContentAt, IsContent, LeadsToContent};
ghost use Rattle.ext_portext.specs.Judged.{FitsBy, IsExtensionFile, LeadsToExtensionFile, why_of};
ghost use Rattle.ext_portext.specs.Steps.{SaysOfFile};

use crate::errors::{ExtWhy, PortExtErr};
use crate::file_name::release_text;
use ext_host::{Held, Shelf};
use ext_match::{Verdict, judge};
use ext_release::{Release, ReleaseErr, read_release};
use ext_text::{Arch, Extension, OutOfMemory, PathRef, Scope};
use ext_tree::{Entry, Tree};
use ext_walk::end_of_text;
use std::alloc::Global;

// What the release file of an extension that can be used says: `None` where it fits.
pub(crate) fn says<H: Shelf>(
    alloc: Global,
    release: &Release,
    arch: Arch,
    tree: &Tree<Held>,
    name: &[u8],
    shelf: &mut H,
) -> Result<Option<ExtWhy>, PortExtErr>
    requires leads { LeadsToExtensionFile tree.now name.now }
    requires serves { ServesAll (H.serves shelf.old) tree.now }
    ensures gives { SaysOfFile release.now arch (H.told shelf.old) (H.faults shelf.old) (H.faults shelf.new) tree.now name.now result }
    ensures stays { H.stays shelf.old shelf.new }
    ensures count { H.faults shelf.old ≤ H.faults shelf.new }
{
    let held = extension_file(alloc, tree, name)?;
    let text = shelf.bytes(alloc, held)?;
    Ok(said(alloc, release, arch, text.bytes())?)
}

// What the bytes of a release file say.
fn said(
    alloc: Global,
    release: &Release,
    arch: Arch,
    bytes: &[u8],
) -> Result<Option<ExtWhy>, OutOfMemory>
    ensures { IfOk result (FitsBy release.now arch bytes.now) }
{
    match read_release(alloc, bytes) {
        Ok(own) => {
            let verdict = judge(
                release,
                &own,
                Extension::Sysext,
                Scope::Portable,
                arch,
                false,
            );
            Ok(why_of(verdict))
        }
        Err(ReleaseErr::BadRelease { line }) => Ok(Some(ExtWhy::BadRelease { line })),
        Err(ReleaseErr::OutOfMemory) => Err(OutOfMemory),
    }
}

// Why an extension of this verdict does not fit.
fn why_of(verdict: Verdict) -> Option<ExtWhy>
    ensures { result ≡ why_of verdict }
{
    match verdict {
        Verdict::Fits => None,
        other => Some(ExtWhy::Verdict(other)),
    }
}

// The release file of an extension that can be used.
fn extension_file<'a>(
    alloc: Global,
    tree: &'a Tree<Held>,
    name: &[u8],
) -> Result<&'a Held, OutOfMemory>
    requires { LeadsToExtensionFile tree.now name.now }
    ensures { IfOk result (λ held. IsExtensionFile tree.now name.now held.now) }
{
    let text = release_text(alloc, name)?;
    file_of_text(alloc, tree, text.as_slice())
}

// What is known of the bytes of the file to which a text leads, as it does.
fn file_of_text<'a>(
    alloc: Global,
    tree: &'a Tree<Held>,
    text: &[u8],
) -> Result<&'a Held, OutOfMemory>
    requires { LeadsTo is_file_at tree.now (parts text.now) }
    ensures { IfOk result (λ held. LeadsToContent tree.now (parts text.now) held.now) }
{
    match content_of_text(alloc, tree, text)? {
        None => unreachable!(),
        Some(held) => Ok(held),
    }
}

// What is known of the bytes of the file to which a text leads.
fn content_of_text<'a>(
    alloc: Global,
    tree: &'a Tree<Held>,
    text: &[u8],
) -> Result<Option<&'a Held>, OutOfMemory>
    ensures { IfOk result (ContentAt tree.now (parts text.now)) }
{
    // `pairs` says of the tree that it is one.
    let _entries = tree.pairs();
    match end_of_text(alloc, tree, &PathRef::root(), text)? {
        None => Ok(None),
        Some(end) => Ok(held_at(tree, &end)),
    }
}

// What is known of the bytes of a file that stands there.
fn held_at<'a>(tree: &'a Tree<Held>, names: &PathRef) -> Option<&'a Held>
    ensures { IsContent (lookup tree.now names.now) result }
{
    match tree.entry_at(names) {
        Some(Entry::File(_, held)) => Some(held),
        Some(Entry::Dir(_) | Entry::Opaque(_) | Entry::Link(_, _) | Entry::Hide) | None => None,
    }
}
