// The versions that `list` writes.
ghost use Rattle.std.specs.Prelude.{◌≡◌, ◌++◌, ◌||◌, IfOk, OnOk, map, reverse};
ghost use Rattle.std.specs.List.{flat_map};
ghost use Rattle.std.specs.Option.{option_copied};
ghost use Rattle.ext_versions.specs.Versions.{AreVersions};
ghost use Rattle.ext_intents.specs.Updates.{AreVersionItems, AreKnown, is_obsolete_by, presence_of, protected_by, version_item, versions_of_items};
ghost use Rattle.ext_intents.specs.VersionItems.{AreFlagsOf, IsGreatestLeast, IsGreater, IsKnown};

use ext_cmd::{Presence, VersionItem, VersionItems};
use ext_installed::Instance;
use ext_text::{OutOfMemory, Text};
use ext_transfer::Transfer;
use ext_update::Updates;
use ext_vers::{Version, compare};
use ext_versions::Versions;
use std::alloc::Global;

// What is told of versions, beside which are available and installed.
#[derive(Drop)]
struct Flags<'a> {
    // Those of which some transfer has an instance.
    present: Versions,
    // Those that some transfer protects.
    protected: Versions,
    // The greatest of the least versions of transfers, if one is set.
    least: Option<&'a Text>,
}

// What is said of each version that is available or has an instance, the greatest first.
pub(crate) fn version_items(alloc: Global, updates: &Updates) -> Result<VersionItems, OutOfMemory>
    ensures { IfOk result (AreVersionItems updates.now) }
{
    let flags = flags_of(alloc, updates)?;
    let known = known_versions(alloc, updates)?;
    items_of(alloc, updates, &flags, known)
}

// What is said of the versions, the last of them first.
fn items_of(
    alloc: Global,
    updates: &Updates,
    flags: &Flags,
    versions: Versions,
) -> Result<VersionItems, OutOfMemory>
    requires flags { AreFlagsOf updates.now flags.now }
    requires known { AreKnown updates.now versions }
    ensures { IfOk result (λ items. items ≡ reverse (map (version_item updates.now) versions)) }
{
    let mut items = Vec::with_capacity(alloc, versions.len())?;
    for version in versions.into_vec() {
        items.push(item_of(updates, flags, version))?;
    }
    items.reverse();
    Ok(VersionItems::from_vec(items))
}

// What is said of a version that is available or has an instance. One without an instance is available, and isn't searched for.
fn item_of(updates: &Updates, flags: &Flags, version: Version) -> VersionItem
    requires flags { AreFlagsOf updates.now flags.now }
    requires known { IsKnown updates.now version }
    ensures { result ≡ version_item updates.now version }
{
    let bytes = version.bytes();
    let present = flags.present.has(bytes);
    let available = !present || updates.available.has(bytes);
    let presence = presence_of(updates.installed.versions.has(bytes), present);
    let protected = flags.protected.has(bytes);
    let obsolete = is_obsolete_by(flags.least, bytes);
    VersionItem {
        version,
        available,
        presence,
        protected,
        obsolete,
    }
}

// Which targets have a version, by whether all have it, and some.
fn presence_of(all: bool, some: bool) -> Presence
    ensures { result ≡ presence_of all some }
{
    if all {
        Presence::Installed
    } else if some {
        Presence::Partial
    } else {
        Presence::Absent
    }
}

// Whether a least version is above the version.
fn is_obsolete_by(least: Option<&Text>, version: &[u8]) -> bool
    ensures { result ≡ is_obsolete_by (option_copied least.entry) version.now }
{
    match least {
        None => false,
        Some(least) => compare(least.bytes(), version).is_gt(),
    }
}

// The versions that are available or have an instance.
fn known_versions(alloc: Global, updates: &Updates) -> Result<Versions, OutOfMemory>
    ensures { IfOk result (AreKnown updates.now) }
{
    let mut versions = Vec::new(alloc);
    append_versions(&mut versions, updates.available.as_slice())?;
    append_present(&mut versions, updates.installed.items.as_slice())?;
    Ok(Versions::of(versions))
}

// What is told of the versions of updates.
fn flags_of<'a>(alloc: Global, updates: &'a Updates) -> Result<Flags<'a>, OutOfMemory>
    ensures { IfOk result (AreFlagsOf updates.now) }
{
    let present = present_versions(alloc, updates.installed.items.as_slice())?;
    let protected = protected_versions(alloc, updates.transfers.as_slice())?;
    let least = greatest_least(updates.transfers.as_slice());
    Ok(Flags {
        present,
        protected,
        least,
    })
}

// The versions of instances.
fn present_versions(alloc: Global, items: &[Instance]) -> Result<Versions, OutOfMemory>
    ensures { IfOk result (AreVersions (versions_of_items items.now)) }
{
    let mut versions = Vec::new(alloc);
    append_present(&mut versions, items)?;
    Ok(Versions::of(versions))
}

// The versions that transfers protect.
fn protected_versions(alloc: Global, transfers: &[Transfer]) -> Result<Versions, OutOfMemory>
    ensures { IfOk result (AreVersions (flat_map protected_by transfers.now)) }
{
    let mut versions = Vec::new(alloc);
    for transfer in transfers {
        append_texts(&mut versions, transfer.protect.as_slice())?;
    }
    Ok(Versions::of(versions))
}

// Adds copies of versions.
fn append_versions(versions: &mut Vec<Version>, more: &[Version]) -> Result<(), OutOfMemory>
    ensures { OnOk result (versions.new.items ≡ versions.old.items ++ more.now) }
{
    for version in more {
        versions.push(version.copy()?)?;
    }
    Ok(())
}

// Adds copies of the versions of instances.
fn append_present(versions: &mut Vec<Version>, items: &[Instance]) -> Result<(), OutOfMemory>
    ensures { OnOk result (versions.new.items ≡ versions.old.items ++ versions_of_items items.now) }
{
    for item in items {
        versions.push(item.version.copy()?)?;
    }
    Ok(())
}

// Adds the versions of texts.
fn append_texts(versions: &mut Vec<Version>, texts: &[Text]) -> Result<(), OutOfMemory>
    ensures { OnOk result (versions.new.items ≡ versions.old.items ++ texts.now) }
{
    for text in texts {
        versions.push(Version::new(text.copy()?))?;
    }
    Ok(())
}

// The greatest of the least versions of transfers, if one is set.
fn greatest_least(transfers: &[Transfer]) -> Option<&Text>
    ensures { IsGreatestLeast transfers.now (option_copied result) }
{
    let mut greatest = None;
    'transfers: for transfer in transfers {
        greatest = greater(greatest, transfer.min.as_ref());
    }
    greatest
}

// The greater of both least versions, if one is set.
fn greater<'a>(first: Option<&'a Text>, second: Option<&'a Text>) -> Option<&'a Text>
    ensures { IsGreater (option_copied first.entry) (option_copied second.entry) (option_copied result) }
{
    match (first, second) {
        (None, other) => other,
        (one, None) => one,
        (Some(one), Some(other)) => {
            if compare(one.bytes(), other.bytes()).is_lt() {
                Some(other)
            } else {
                Some(one)
            }
        }
    }
}
