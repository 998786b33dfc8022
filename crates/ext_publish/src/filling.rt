// The files of a resource are written in the depot, and synced, and then the folders that have them.
ghost use Rattle.std.specs.Prelude.{◌≡◌, ◌++◌, ◌∷◌, ℕ, List, [], ◌≢◌, true, IfErr, IfOk, IfSome, OnOk};
ghost use Rattle.std.specs.Option.{option_copied};
ghost use Rattle.ext_text.specs.Path.{is_prefix};
ghost use Rattle.ext_disk.specs.Fixed.{Spares};
ghost use Rattle.ext_disk.specs.Since.{Rests};
ghost use Rattle.ext_disk.specs.Calls.{MayCall, make_file};
ghost use Rattle.ext_store_files.specs.HeldFiles.{is_served};
ghost use Rattle.ext_store_files.specs.Writing.{Holds, IsWritten, Works, nowhere};
ghost use Rattle.ext_published.specs.Places.{ArePlaces};
ghost use Rattle.ext_published.specs.Published.{text_of_payload};
ghost use Rattle.ext_published.specs.declared.payload.Payload.TheVariants as payloads;
ghost use Rattle.ext_publish.specs.Copying.{HeldCause, WorksAt};
ghost use Rattle.ext_disk.specs.Disk.{BothTold, is_file, is_synced};
ghost use Rattle.ext_publish.specs.Filling.{AreNamed, EndsFilled, WrittenEntryCause, FilesCause, HasFilesOf, IsFilling, IsOneMore, IsOpenFor, IsReadable, MayWriteOne, StaySynced, WritesEntry, held_of, is_filled_at};
ghost use Rattle.ext_publish.specs.Stopping.{OutCause};
ghost use Rattle.ext_publish.specs.declared.stop.Stop.TheVariants as stops;

use crate::copying::{copy_held, write_at};
use crate::folders::{make_down, sync_at};
use crate::stop::Stop;
use ext_disk::Disk;
use ext_host::Held;
use ext_published::{Asked, Payload, Places};
use ext_text::{Path, Text};
use ext_tree::{Entry, Tree};
use std::alloc::Global;

/// Writes what is published: the tree text and each file of a directory, or a file. Each file is synced, and then the folders
/// that have files. The folder of the resource itself is not synced.
pub(crate) fn fill<D: Disk, O: Disk>(
    alloc: Global,
    asked: &Asked,
    payload: &Payload,
    places: &Places,
    text: &Option<Text>,
    store: &mut D,
    out: &mut O,
) -> Result<(), Stop>
    requires places { ArePlaces asked.now places.now }
    requires text { text.now ≡ text_of_payload payload.now }
    requires readable { IsReadable payload.now }
    requires open { IfSome (O.state out.old).told (λ d. IsOpenFor asked.now d.places) }
    ensures spares { Spares (is_filled_at asked.now) (O.state out.old) (O.state out.new) }
    ensures rests { Rests (D.state store.old) (D.state store.new) }
    ensures filled { EndsFilled result (D.state store.old) asked.now payload.now (O.state out.new) }
    ensures cause { IfErr result (FilesCause payload.now (D.state store.old) (D.state store.new) (O.state out.old) (O.state out.new)) }
{
    match payload {
        Payload::File(held) => copy_held(alloc, held, store, &places.resource, out),
        Payload::Directory(tree) => {
            write_text(out, &places.text, text)?;
            write_files(alloc, tree, asked.folder(), &places.resource, store, out)?;
            sync_parents(tree, &places.resource, out)
        }
    }
}

// Writes the tree text of a directory.
fn write_text<O: Disk>(out: &mut O, path: &Path, text: &Option<Text>) -> Result<(), Stop>
    requires { MayCall (make_file path.now) (O.state out.old) }
    ensures works { WorksAt path.now (O.state out.old) (O.state out.new) }
    ensures written { OnOk result (IfSome text.now (λ text. Holds (IsWritten path.now text) (O.state out.new))) }
    ensures cause { IfErr result (OutCause (O.state out.old) (O.state out.new)) }
{
    match text {
        None => Ok(()),
        Some(text) => write_at(out, path, text.bytes()),
    }
}

// Copies the files of a directory, and makes the folders that have them.
fn write_files<D: Disk, O: Disk>(
    alloc: Global,
    tree: &Tree<Held>,
    folder: &Path,
    resource: &Path,
    store: &mut D,
    out: &mut O,
) -> Result<(), Stop>
    requires below { (name : List ℕ) × (resource.now ≡ folder.now ++ name ∷ []) }
    requires readable { IsReadable (payloads.Directory tree.now) }
    requires free { Holds (IsFilling (D.state store.old) folder.now resource.now tree.now []) (O.state out.old) }
    ensures spares { Spares (is_prefix resource.now) (O.state out.old) (O.state out.new) }
    ensures rests { Rests (D.state store.old) (D.state store.new) }
    ensures filled { OnOk result (Holds (IsFilling (D.state store.old) folder.now resource.now tree.now tree.now) (O.state out.new)) }
    ensures cause { IfErr result (FilesCause (payloads.Directory tree.now) (D.state store.old) (D.state store.new) (O.state out.old)
        (O.state out.new)) }
{
    'entries: for pair in tree.pairs() {
        write_entry(alloc, pair, folder, resource, store, out)?;
    }
    Ok(())
}

// Copies an entry of a directory to its path below the resource, where it is a file.
fn write_entry<D: Disk, O: Disk>(
    alloc: Global,
    pair: &(Path, Entry<Held>),
    folder: &Path,
    resource: &Path,
    store: &mut D,
    out: &mut O,
) -> Result<(), Stop>
    requires below { (name : List ℕ) × (resource.now ≡ folder.now ++ name ∷ []) }
    requires served { IfSome (held_of pair.now.1) (λ held. is_served held.body ≡ true) }
    requires may { IfSome (held_of pair.now.1) (λ held. IfSome (O.state out.old).told
        (λ d. MayWriteOne folder.now (resource.now ++ pair.now.0) d.places)) }
    ensures spares { Spares (is_prefix resource.now) (O.state out.old) (O.state out.new) }
    ensures rests { Rests (D.state store.old) (D.state store.new) }
    ensures done { OnOk result (WritesEntry (D.state store.old) (held_of pair.now.1) (resource.now ++ pair.now.0)
        (O.state out.old) (O.state out.new)) }
    ensures cause { IfErr result (WrittenEntryCause (held_of pair.now.1) (D.state store.old) (D.state store.new) (O.state out.old)
        (O.state out.new)) }
{
    match held_of(&pair.1) {
        None => Ok(()),
        Some(held) => write_one(alloc, &pair.0, held, folder, resource, store, out),
    }
}

// Copies a file of a directory to its path below the resource.
fn write_one<D: Disk, O: Disk>(
    alloc: Global,
    below: &Path,
    held: &Held,
    folder: &Path,
    resource: &Path,
    store: &mut D,
    out: &mut O,
) -> Result<(), Stop>
    requires below { (name : List ℕ) × (resource.now ≡ folder.now ++ name ∷ []) }
    requires served { is_served held.now.body ≡ true }
    requires may { IfSome (O.state out.old).told (λ d. MayWriteOne folder.now (resource.now ++ below.now) d.places) }
    ensures spares { Spares (is_prefix resource.now) (O.state out.old) (O.state out.new) }
    ensures rests { Rests (D.state store.old) (D.state store.new) }
    ensures done { OnOk result (BothTold (λ d e. IsOneMore (D.state store.old) held.now (resource.now ++ below.now) d.places e.places)
        (O.state out.old).told (O.state out.new).told) }
    ensures cause { IfErr result (HeldCause held.now (D.state store.old) (D.state store.new) (O.state out.old) (O.state out.new)) }
{
    let path = path_below(resource, below)?;
    make_down(out, folder, &path.parent().rest(folder.depth()))?;
    copy_held(alloc, held, store, &path, out)
}

// Syncs the folders that have the files of a directory.
fn sync_parents<O: Disk>(tree: &Tree<Held>, resource: &Path, out: &mut O) -> Result<(), Stop>
    requires { IfSome (O.state out.old).told (λ d. HasFilesOf tree.now resource.now d.places) }
    ensures works { Works nowhere nowhere 0 (O.state out.old) (O.state out.new) }
    ensures named { OnOk result (Holds (AreNamed resource.now tree.now) (O.state out.new)) }
    ensures cause { IfErr result (OutCause (O.state out.old) (O.state out.new)) }
{
    'entries: for pair in tree.pairs() {
        sync_entry(pair, resource, out)?;
    }
    Ok(())
}

// Syncs the folder that has an entry of a directory, where the entry is a file.
fn sync_entry<O: Disk>(pair: &(Path, Entry<Held>), resource: &Path, out: &mut O) -> Result<(), Stop>
    requires some { pair.now.0 ≢ [] }
    requires file { IfSome (held_of pair.now.1) (λ held. IfSome (O.state out.old).told
        (λ d. is_file (d.places (resource.now ++ pair.now.0)).node ≡ true)) }
    ensures works { Works nowhere nowhere 0 (O.state out.old) (O.state out.new) }
    ensures named { OnOk result (IfSome (held_of pair.now.1)
        (λ held. Holds (λ e. is_synced (e (resource.now ++ pair.now.0)) ≡ true) (O.state out.new))) }
    ensures cause { IfErr result (OutCause (O.state out.old) (O.state out.new)) }
{
    match held_of(&pair.1) {
        None => Ok(()),
        Some(_held) => sync_parent(&pair.0, resource, out),
    }
}

// Syncs the folder that has a file of a directory.
fn sync_parent<O: Disk>(below: &Path, resource: &Path, out: &mut O) -> Result<(), Stop>
    requires some { below.now ≢ [] }
    requires file { IfSome (O.state out.old).told (λ d. is_file (d.places (resource.now ++ below.now)).node ≡ true) }
    ensures works { Works nowhere nowhere 0 (O.state out.old) (O.state out.new) }
    ensures named { OnOk result (Holds (λ e. is_synced (e (resource.now ++ below.now)) ≡ true) (O.state out.new)) }
    ensures stays { BothTold StaySynced (O.state out.old).told (O.state out.new).told }
    ensures cause { IfErr result (OutCause (O.state out.old) (O.state out.new)) }
{
    let path = path_below(resource, below)?;
    let parent = path.prefix(path.depth() - 1)?;
    sync_at(out, &parent)
}

// The file of an entry, where it is one.
fn held_of(entry: &Entry<Held>) -> Option<&Held>
    ensures { option_copied result ≡ held_of entry.now }
{
    match entry {
        Entry::File(_, held) => Some(held),
        Entry::Dir(_) => None,
        Entry::Opaque(_) => None,
        Entry::Link(_, _) => None,
        Entry::Hide => None,
    }
}

// The path of an entry below that of its resource.
fn path_below(resource: &Path, path: &Path) -> Result<Path, Stop>
    ensures longer { IfOk result (λ longer. longer ≡ resource.now ++ path.now) }
    ensures cause { IfErr result (λ e. e ≡ stops.OutOfMemory) }
{
    match resource.join(path) {
        Ok(path) => Ok(path),
        Err(_) => Err(Stop::OutOfMemory),
    }
}
