// The ten calls of a disk, each made where its condition holds.
ghost use Rattle.std.specs.Prelude.{◌≡◌, ◌<◌, ◌∷◌, ◌++◌, [], true, length, IsTrue, IfOk, IfSome, Option};
ghost use Rattle.ext_disk.specs.Calls.{remove, rename, MayCall};
ghost use Rattle.ext_disk.specs.Disk.{Node, is_file, is_no_folder};
ghost use Rattle.ext_disk.specs.Lookups.{IsKindAt, MayList, kind_of};

use crate::looking::append_kind;
use crate::placing::{below, cut, is_free};
use ext_case::{
    Trouble, append_line, line_of, number, one, one_and_more, path, size, string, three, two,
};
use ext_disk::{Disk, Kind, ListErr, MemoryDisk};
use ext_io::Failed;
use ext_text::{Name, Names, Path, Text};
use std::alloc::Global;

/// What comes of a call of the disk, `CALL ARGUMENT ..`: what it gives, `done`, `failed`, or `not allowed` where its condition
/// does not hold there.
///
/// The condition is looked for by two calls `kind`, at the folder around the path and at the path, of a rename at both
/// paths, and the root is its own folder. So the call is the third of three, but for `kind` itself, which has no condition,
/// and for the removal of a folder, which is listed first. Errors: `Unreadable` where it is no call.
pub fn call_text(
    alloc: Global,
    disk: &mut MemoryDisk,
    arguments: &[Text],
) -> Result<Text, Trouble> {
    let (call, rest) = one_and_more(arguments)?;
    match string(call)? {
        "make_dir" => make_text(alloc, disk, one(rest)?, Made::Folder),
        "make_file" => make_text(alloc, disk, one(rest)?, Made::File),
        "rename" => rename_text(alloc, disk, rest),
        "append" => append_text(alloc, disk, rest),
        "read" => read_text(alloc, disk, rest),
        word => spot_text(alloc, disk, word, one(rest)?),
    }
}

// A call of a path alone.
fn spot_text(alloc: Global, disk: &mut MemoryDisk, call: &str, at: &Text) -> Result<Text, Trouble> {
    let at = path(alloc, at)?;
    let around = folder_around(&at)?;
    match call {
        "kind" => kind_text(alloc, disk.kind(&at)),
        "list" => names_text(alloc, list(alloc, disk, &at, &around)),
        "sync_file" => done_text(alloc, sync_file(disk, &at, &around)),
        "sync_dir" => done_text(alloc, sync_dir(disk, &at, &around)),
        "remove" => removed_text(alloc, remove_spot(alloc, disk, &at, &around)),
        _ => Err(Trouble::Unreadable("no such call of a disk")),
    }
}

// The path of the folder around a path; the root is its own.
fn folder_around(path: &Path) -> Result<Path, Trouble> {
    Ok(path.prefix(path.depth().saturating_sub(1))?)
}

fn done_text(alloc: Global, done: Result<bool, Failed>) -> Result<Text, Trouble> {
    match done {
        Ok(true) => line_of(alloc, "done"),
        Ok(false) => line_of(alloc, "not allowed"),
        Err(Failed) => line_of(alloc, "failed"),
    }
}

fn removed_text(alloc: Global, removed: Result<bool, ListErr>) -> Result<Text, Trouble> {
    match removed {
        Ok(done) => done_text(alloc, Ok(done)),
        Err(ListErr::Failed) => line_of(alloc, "failed"),
        Err(ListErr::OutOfMemory) => Err(Trouble::OutOfMemory),
    }
}

fn kind_text(alloc: Global, kind: Result<Option<Kind>, Failed>) -> Result<Text, Trouble> {
    match kind {
        Ok(kind) => {
            let mut text = Text::new(alloc);
            append_kind(alloc, &mut text, kind)?;
            append_line(&mut text, b"")?;
            Ok(text)
        }
        Err(Failed) => line_of(alloc, "failed"),
    }
}

fn names_text(alloc: Global, listed: Result<Option<Names>, ListErr>) -> Result<Text, Trouble> {
    match listed {
        Ok(Some(names)) => lines_of(alloc, names.as_slice()),
        Ok(None) => line_of(alloc, "not allowed"),
        Err(ListErr::Failed) => line_of(alloc, "failed"),
        Err(ListErr::OutOfMemory) => Err(Trouble::OutOfMemory),
    }
}

// A line for each name.
fn lines_of(alloc: Global, names: &[Name]) -> Result<Text, Trouble> {
    let mut text = Text::new(alloc);
    for name in names {
        append_line(&mut text, name.bytes())?;
    }
    Ok(text)
}

// What stands at a path. It is asked first what stands at the folder around it.
fn look<D: Disk>(disk: &mut D, path: &Path, around: &Path) -> Result<Option<Kind>, Failed>
    ensures { IfOk result (IsKindAt (D.state disk.new) path.now) }
{
    let _around = disk.kind(around)?;
    disk.kind(path)
}

// Whether a file stands at a path.
fn has_file<D: Disk>(disk: &mut D, path: &Path, around: &Path) -> Result<bool, Failed>
    ensures { IfOk result (λ has. IsTrue has → IfSome (D.state disk.new).told (λ d. is_file (d.places path.now).node ≡ true)) }
{
    match look(disk, path, around)? {
        Some(Kind::File(_)) => Ok(true),
        Some(Kind::Dir) | None => Ok(false),
    }
}

// Whether a folder stands at a path.
fn has_folder<D: Disk>(disk: &mut D, path: &Path, around: &Path) -> Result<bool, Failed>
    ensures { IfOk result (λ has. IsTrue has → MayList (D.state disk.new) path.now) }
{
    match look(disk, path, around)? {
        Some(Kind::Dir) => Ok(true),
        Some(Kind::File(_)) | None => Ok(false),
    }
}

/// The names in a folder; `None` where none stands at the path.
pub(crate) fn list<D: Disk>(
    alloc: Global,
    disk: &mut D,
    path: &Path,
    around: &Path,
) -> Result<Option<Names>, ListErr> {
    if !has_folder(disk, path, around)? {
        return Ok(None);
    }
    Ok(Some(disk.list(alloc, path)?))
}

// `read PATH AT ROOM`.
fn read_text(alloc: Global, disk: &mut MemoryDisk, arguments: &[Text]) -> Result<Text, Trouble> {
    let (at, from, room) = three(arguments)?;
    let mut buf = vec![in alloc; b'?'; size(room)?]?;
    if buf.is_empty() {
        return Err(Trouble::Unreadable("no room"));
    }
    let from = number(from, u64::MAX)?;
    let at = path(alloc, at)?;
    let around = folder_around(&at)?;
    match read(disk, &at, &around, from, &mut buf) {
        Ok(Some(count)) => Ok(Text::from_bytes(alloc, buf.get(..count).unwrap_or(b"?"))?),
        Ok(None) => line_of(alloc, "not allowed"),
        Err(Failed) => line_of(alloc, "failed"),
    }
}

// How many bytes of the file at a path are read into the buffer; `None` where no file stands there.
fn read<D: Disk>(
    disk: &mut D,
    path: &Path,
    around: &Path,
    at: u64,
    buf: &mut [u8],
) -> Result<Option<usize>, Failed>
    requires { 0 < length buf.old }
{
    if !has_file(disk, path, around)? {
        return Ok(None);
    }
    Ok(Some(disk.read(path, at, buf)?))
}

// What is made.
#[derive(Clone, Copy)]
enum Made {
    Folder,
    File,
}

fn make_text(alloc: Global, disk: &mut MemoryDisk, at: &Text, made: Made) -> Result<Text, Trouble> {
    let (dir, name) = cut(alloc, at.bytes())?;
    let path = below(&dir, &name)?;
    done_text(alloc, make(disk, &dir, &name, &path, made))
}

fn make<D: Disk>(
    disk: &mut D,
    dir: &Path,
    name: &Name,
    path: &Path,
    made: Made,
) -> Result<bool, Failed>
    requires { path.now ≡ dir.now ++ name.now ∷ [] }
{
    if !is_free(disk, dir, name, path)? {
        return Ok(false);
    }
    match made {
        Made::Folder => disk.make_dir(path)?,
        Made::File => disk.make_file(path)?,
    }
    Ok(true)
}

// `append PATH BYTES`.
fn append_text(alloc: Global, disk: &mut MemoryDisk, arguments: &[Text]) -> Result<Text, Trouble> {
    let (at, bytes) = two(arguments)?;
    let at = path(alloc, at)?;
    let around = folder_around(&at)?;
    done_text(alloc, append(disk, &at, &around, bytes.bytes()))
}

fn append<D: Disk>(disk: &mut D, path: &Path, around: &Path, bytes: &[u8]) -> Result<bool, Failed> {
    if !has_file(disk, path, around)? || bytes.is_empty() {
        return Ok(false);
    }
    disk.append(path, bytes)?;
    Ok(true)
}

fn sync_file<D: Disk>(disk: &mut D, path: &Path, around: &Path) -> Result<bool, Failed> {
    if !has_file(disk, path, around)? {
        return Ok(false);
    }
    disk.sync_file(path)?;
    Ok(true)
}

fn sync_dir<D: Disk>(disk: &mut D, path: &Path, around: &Path) -> Result<bool, Failed> {
    if !has_folder(disk, path, around)? {
        return Ok(false);
    }
    disk.sync_dir(path)?;
    Ok(true)
}

// `rename FROM TO`, which are names in one folder.
fn rename_text(alloc: Global, disk: &mut MemoryDisk, arguments: &[Text]) -> Result<Text, Trouble> {
    let (from, to) = two(arguments)?;
    let (dir, old) = cut(alloc, from.bytes())?;
    let (other, new) = cut(alloc, to.bytes())?;
    if dir != other {
        return line_of(alloc, "not allowed");
    }
    rename_in(alloc, disk, &dir, (&old, &new))
}

fn rename_in(
    alloc: Global,
    disk: &mut MemoryDisk,
    dir: &Path,
    names: (&Name, &Name),
) -> Result<Text, Trouble> {
    let (old, new) = names;
    let from = below(dir, old)?;
    let to = below(dir, new)?;
    done_text(alloc, rename_spot(disk, dir, (old, new), &from, &to))
}

fn rename_spot<D: Disk>(
    disk: &mut D,
    dir: &Path,
    names: (&Name, &Name),
    from: &Path,
    to: &Path,
) -> Result<bool, Failed>
    requires from { from.now ≡ dir.now ++ names.0.now ∷ [] }
    requires to { to.now ≡ dir.now ++ names.1.now ∷ [] }
{
    if !may_rename(disk, dir, names, from, to)? {
        return Ok(false);
    }
    disk.rename(from, to)?;
    Ok(true)
}

// Whether a file stands at the first path, and a file or nothing at the second.
fn may_rename<D: Disk>(
    disk: &mut D,
    dir: &Path,
    names: (&Name, &Name),
    from: &Path,
    to: &Path,
) -> Result<bool, Failed>
    requires from { from.now ≡ dir.now ++ names.0.now ∷ [] }
    requires to { to.now ≡ dir.now ++ names.1.now ∷ [] }
    ensures { IfOk result (λ may. IsTrue may → MayCall (rename from.now to.now) (D.state disk.new)) }
{
    let both = look_at_both(disk, from, to)?;
    if from.cmp(to).is_eq() {
        return Ok(false);
    }
    Ok(is_file_kind(both.0) && is_no_folder_kind(both.1))
}

// What stands at both paths.
fn look_at_both<D: Disk>(
    disk: &mut D,
    from: &Path,
    to: &Path,
) -> Result<(Option<Kind>, Option<Kind>), Failed>
    ensures from { IfOk result (λ both. IsKindAt (D.state disk.new) from.now both.0) }
    ensures to { IfOk result (λ both. IsKindAt (D.state disk.new) to.now both.1) }
{
    let moved = disk.kind(from)?;
    let there = disk.kind(to)?;
    Ok((moved, there))
}

fn is_file_kind(kind: Option<Kind>) -> bool
    ensures { (node : Option Node) → kind ≡ kind_of node → IsTrue result → is_file node ≡ true }
{
    match kind {
        Some(Kind::File(_)) => true,
        Some(Kind::Dir) | None => false,
    }
}

fn is_no_folder_kind(kind: Option<Kind>) -> bool
    ensures { (node : Option Node) → kind ≡ kind_of node → IsTrue result → is_no_folder node ≡ true }
{
    match kind {
        Some(Kind::File(_)) | None => true,
        Some(Kind::Dir) => false,
    }
}

fn remove_spot<D: Disk>(
    alloc: Global,
    disk: &mut D,
    path: &Path,
    around: &Path,
) -> Result<bool, ListErr> {
    if !may_remove(alloc, disk, path, around)? {
        return Ok(false);
    }
    disk.remove(path)?;
    Ok(true)
}

// Whether a file stands at the path, or an empty folder that is not the root.
fn may_remove<D: Disk>(
    alloc: Global,
    disk: &mut D,
    path: &Path,
    around: &Path,
) -> Result<bool, ListErr>
    ensures { IfOk result (λ may. IsTrue may → MayCall (remove path.now) (D.state disk.new)) }
{
    match look(disk, path, around)? {
        Some(Kind::File(_)) => Ok(true),
        Some(Kind::Dir) => is_empty(alloc, disk, path),
        None => Ok(false),
    }
}

// Whether nothing stands in the folder, which is not the root.
fn is_empty<D: Disk>(alloc: Global, disk: &mut D, dir: &Path) -> Result<bool, ListErr>
    requires { MayList (D.state disk.old) dir.now }
    ensures { IfOk result (λ empty. IsTrue empty → MayCall (remove dir.now) (D.state disk.new)) }
{
    if dir.is_root() {
        return Ok(false);
    }
    let names = disk.list(alloc, dir)?;
    Ok(names.is_empty())
}
