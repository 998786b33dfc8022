// Whether one entry is a resource of a version.
ghost use Rattle.std.specs.Prelude.{◌≡◌, IfOk};
ghost use Rattle.std.specs.Option.{option_copied};
ghost use Rattle.ext_installed.specs.Instance.{is_of_type};
ghost use Rattle.ext_installed.specs.Resource.{InstanceAt, IsNameIn, VersionAt};

use crate::instance::Instance;
use ext_lines::OutOfMemory;
use ext_pattern::first_match;
use ext_text::{Path, Text};
use ext_transfer::{ResourceType, Transfer};
use ext_tree::Entry;
use ext_vers::Version;
use std::alloc::Global;

// The instance of the transfer at this place that an entry is, if it is one.
pub(crate) fn instance_at<C>(
    alloc: Global,
    place: usize,
    transfer: &Transfer,
    entry: &(Path, Entry<C>),
) -> Result<Option<Instance>, OutOfMemory>
    ensures { IfOk result (InstanceAt place transfer.now entry.now.0 entry.now.1) }
{
    match version_at(transfer, &entry.0, &entry.1) {
        None => Ok(None),
        Some(version) => {
            let text = Text::from_bytes(alloc, version)?;
            Ok(Some(Instance {
                transfer: place,
                version: Version::new(text),
                path: entry.0.copy()?,
            }))
        }
    }
}

// The version of which the entry at a path is a resource, if it is one.
fn version_at<'a, C>(transfer: &Transfer, path: &'a Path, entry: &Entry<C>) -> Option<&'a [u8]>
    ensures { VersionAt transfer.now path.now entry.now (option_copied result) }
{
    if !is_of_type(transfer.resources, entry) {
        return None;
    }
    let name = name_in(&transfer.target.path, path)?;
    let caught = first_match(transfer.target.patterns.as_slice(), name)?;
    Some(caught.version_of(name))
}

// Whether an entry is what resources of this type are.
fn is_of_type<C>(resources: ResourceType, entry: &Entry<C>) -> bool
    ensures { result ≡ is_of_type resources entry.now }
{
    match resources {
        ResourceType::File => entry.is_file(),
        ResourceType::Directory => entry.is_directory(),
    }
}

// The name of a path directly in a directory.
fn name_in<'a>(directory: &Path, path: &'a Path) -> Option<&'a [u8]>
    ensures { IsNameIn directory.now path.now (option_copied result) }
{
    let (above, name) = path.names().split_last()?;
    if above == directory.names() {
        Some(name)
    } else {
        None
    }
}
