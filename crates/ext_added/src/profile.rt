// Profiles of portable services.
ghost use Rattle.std.specs.Prelude.{◌≡◌, IfOk};
ghost use Rattle.ext_walk.specs.Walk.{parts};
ghost use Rattle.ext_added.specs.Profile.{LaterProfileAt, ProfileAt, ProfileIn, ProfileWhere, profile_text};

use ext_host::Held;
use ext_text::{Name, OutOfMemory, Path, PathRef};
use ext_tree::{Entry, Held1, Tree};
use ext_walk::end_of_text;
use std::alloc::Global;

/// The file of a profile of portable services.
#[derive(Drop)]
pub struct Profile {
    /// Its path in the base, once links are followed.
    pub path: Path,
    /// Its bytes.
    pub file: Held,
}

/// The profile of this name: the first `NAME/service.conf` that leads to a file, in `/etc/systemd/portable/profile`,
/// `/run/systemd/portable/profile` and `/usr/lib/systemd/portable/profile`. `None` exactly where none does. After portablectl(1),
/// option `--profile=`; the order of the directories is this project's own choice.
///
/// # Errors
/// `OutOfMemory` alone.
pub fn profile_of(
    alloc: Global,
    base: &Tree<Held>,
    name: &Name,
) -> Result<Option<Profile>, OutOfMemory>
    ensures { IfOk result (ProfileAt base.now name.now) }
{
    match profile_in(alloc, base, b"etc/systemd/portable/profile/", name)? {
        Some(profile) => Ok(Some(profile)),
        None => later_profile_of(alloc, base, name),
    }
}

// The profile of this name in the directories after the first one.
fn later_profile_of(
    alloc: Global,
    base: &Tree<Held>,
    name: &Name,
) -> Result<Option<Profile>, OutOfMemory>
    ensures { IfOk result (LaterProfileAt base.now name.now) }
{
    match profile_in(alloc, base, b"run/systemd/portable/profile/", name)? {
        Some(profile) => Ok(Some(profile)),
        None => profile_in(alloc, base, b"usr/lib/systemd/portable/profile/", name),
    }
}

// The file to which the profile of this name in a directory leads.
fn profile_in(
    alloc: Global,
    base: &Tree<Held>,
    directory: &[u8],
    name: &Name,
) -> Result<Option<Profile>, OutOfMemory>
    ensures { IfOk result (ProfileIn base.now (parts (profile_text directory.now name.now))) }
{
    let text = profile_text(alloc, directory, name)?;
    profile_at(alloc, base, text.as_slice())
}

// The text of the path of a profile in a directory.
fn profile_text(alloc: Global, directory: &[u8], name: &Name) -> Result<Vec<u8>, OutOfMemory>
    ensures { IfOk result (λ text. text.items ≡ profile_text directory.now name.now) }
{
    let mut text = Vec::new(alloc);
    text.extend_from_slice(directory)?;
    text.extend_from_slice(name.bytes())?;
    text.extend_from_slice(b"/service.conf")?;
    Ok(text)
}

// The file to which a text leads.
fn profile_at(alloc: Global, base: &Tree<Held>, text: &[u8]) -> Result<Option<Profile>, OutOfMemory>
    ensures { IfOk result (ProfileIn base.now (parts text.now)) }
{
    // `pairs` says of the base that it is a tree.
    let _entries = base.pairs();
    match end_of_text(alloc, base, &PathRef::root(), text)? {
        None => Ok(None),
        Some(end) => profile_where(alloc, base, &end),
    }
}

// The file that stands at a path.
fn profile_where(
    alloc: Global,
    base: &Tree<Held>,
    end: &PathRef,
) -> Result<Option<Profile>, OutOfMemory>
    ensures { IfOk result (ProfileWhere base.now end.now) }
{
    // `pairs` says of the base that its entries are at paths.
    let _entries = base.pairs();
    match base.entry_at(end) {
        Some(Entry::File(_, file)) => {
            let file = file.copy(alloc)?;
            let path = Path::of_names(alloc, end)?;
            Ok(Some(Profile { path, file }))
        }
        Some(Entry::Dir(_) | Entry::Opaque(_) | Entry::Link(_, _) | Entry::Hide) | None => Ok(None),
    }
}
