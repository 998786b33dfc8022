// Where an attachment is put.
ghost use Rattle.std.specs.Prelude.{◌≡◌, ◌++◌, ◌∷◌, [], IfOk};
ghost use Rattle.ext_text.specs.Path.{IsPath, path_parts};
ghost use Rattle.ext_added.specs.Destination.{IsDropInName, destination, image_directory};

use ext_text::{Name, OutOfMemory, Path, PathRef};
use std::alloc::Global;

// The most bytes of a name.
const MOST_NAME: usize = 255;

// The directory of units.
pub(crate) fn destination(alloc: Global, runtime: bool) -> Result<Path, OutOfMemory>
    ensures { IfOk result (λ path. path ≡ destination runtime) }
{
    if runtime {
        path_of(alloc, b"run/systemd/system.attached")
    } else {
        path_of(alloc, b"etc/systemd/system.attached")
    }
}

// The directory of images from outside the search directories.
pub(crate) fn image_directory(alloc: Global, runtime: bool) -> Result<Path, OutOfMemory>
    ensures { IfOk result (λ path. path ≡ image_directory runtime) }
{
    if runtime {
        path_of(alloc, b"run/portables")
    } else {
        path_of(alloc, b"etc/portables")
    }
}

// The path of a text that is one.
fn path_of(alloc: Global, text: &[u8]) -> Result<Path, OutOfMemory>
    requires { IsPath (path_parts text.now) }
    ensures { IfOk result (λ path. path ≡ path_parts text.now) }
{
    Path::of_names(alloc, &PathRef::of_text(text))
}

// The path of a name in one of these directories. Both together are within the limits of a path, so nothing but a lack of memory
// comes.
pub(crate) fn child(directory: &Path, name: &Name) -> Result<Path, OutOfMemory>
    ensures { IfOk result (λ path. path ≡ directory.now ++ name.now ∷ []) }
{
    match directory.child(name) {
        Ok(path) => Ok(path),
        Err(_) => Err(OutOfMemory),
    }
}

// The name of these bytes, which are one, so that nothing but a lack of memory comes.
pub(crate) fn name_of(alloc: Global, bytes: &[u8]) -> Result<Name, OutOfMemory>
    ensures { IfOk result (λ name. name ≡ bytes.now) }
{
    match Name::read(alloc, bytes) {
        Ok(name) => Ok(name),
        Err(_) => Err(OutOfMemory),
    }
}

// The name of the directory of the drop-ins of a unit; `None` exactly where it is too long for a name.
pub(crate) fn drop_in_name(alloc: Global, unit: &[u8]) -> Result<Option<Name>, OutOfMemory>
    ensures { IfOk result (IsDropInName unit.now) }
{
    let mut bytes = Vec::new(alloc);
    bytes.extend_from_slice(unit)?;
    bytes.extend_from_slice(b".d")?;
    if bytes.len() > MOST_NAME {
        return Ok(None);
    }
    Ok(Some(name_of(alloc, bytes.as_slice())?))
}
