// Versions in ascending order: those of instances, and those that a transfer protects.
ghost use Rattle.std.specs.Prelude.{◌≡◌, IfOk};
ghost use Rattle.std.specs.Option.{option_copied};
ghost use Rattle.ext_versions.specs.Versions.{AreVersions};
ghost use Rattle.ext_choice.specs.Room.{is_coming, versions_beside};

use ext_installed::Instance;
use ext_text::{OutOfMemory, Text};
use ext_vers::Version;
use ext_versions::Versions;
use std::alloc::Global;

// The versions of instances without the coming one.
pub(crate) fn beside(
    alloc: Global,
    coming: Option<&[u8]>,
    items: &[Instance],
) -> Result<Versions, OutOfMemory>
    ensures { IfOk result (AreVersions (versions_beside (option_copied coming.entry) items.now)) }
{
    let mut versions = Vec::new(alloc);
    'items: for item in items {
        if !is_coming(coming, &item.version) {
            versions.push(item.version.copy()?)?;
        }
    }
    Ok(Versions::of(versions))
}

// Whether a version is the coming one.
fn is_coming(coming: Option<&[u8]>, version: &Version) -> bool
    ensures { result ≡ is_coming (option_copied coming.entry) version.now }
{
    match coming {
        None => false,
        Some(coming) => coming == version.bytes(),
    }
}

// Texts as versions.
pub(crate) fn as_versions(alloc: Global, texts: &[Text]) -> Result<Versions, OutOfMemory>
    ensures { IfOk result (AreVersions texts.now) }
{
    let mut versions = Vec::with_capacity(alloc, texts.len())?;
    'texts: for text in texts {
        versions.push(Version::new(text.copy()?))?;
    }
    Ok(Versions::of(versions))
}
