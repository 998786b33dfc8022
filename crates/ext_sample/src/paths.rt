// The paths of the files of a sample.
ghost use Rattle.std.specs.Prelude.{◌≡◌, ◌∷◌, [], codes, IfOk};
ghost use Rattle.ext_text.specs.Path.{IsPath, path_parts};
ghost use Rattle.ext_sample.specs.Sample.{image_name, release_path, shared_path};

use crate::numbered::numbered;
use ext_lines::append_decimal;
use ext_text::{OutOfMemory, Path, PathRef};
use std::alloc::Global;

// `usr/lib/os-release`
pub(crate) fn os_release_path(alloc: Global) -> Result<Path, OutOfMemory>
    ensures { IfOk result (λ path. path ≡ codes "usr" ∷ codes "lib" ∷ codes "os-release" ∷ []) }
{
    path_of(alloc, b"usr/lib/os-release")
}

// `usr/share/h/NUMBER`
pub(crate) fn shared_path(alloc: Global, number: u64) -> Result<Path, OutOfMemory>
    ensures { IfOk result (λ path. path ≡ shared_path number) }
{
    let text = numbered(alloc, b"usr/share/h/", number)?;
    path_of(alloc, text.as_slice())
}

// `s-IMAGE/usr/share/h/NUMBER`
pub(crate) fn image_path(alloc: Global, image: u64, number: u64) -> Result<Path, OutOfMemory>
    ensures { IfOk result (λ path. path ≡ image_name image ∷ shared_path number) }
{
    let mut text = numbered(alloc, b"s-", image)?;
    text.extend_from_slice(b"/usr/share/h/")?;
    append_decimal(&mut text, number)?;
    path_of(alloc, text.as_slice())
}

// `s-IMAGE/usr/lib/extension-release.d/extension-release.s-IMAGE`
pub(crate) fn release_path(alloc: Global, image: u64) -> Result<Path, OutOfMemory>
    ensures { IfOk result (λ path. path ≡ image_name image ∷ release_path (image_name image)) }
{
    let mut text = numbered(alloc, b"s-", image)?;
    text.extend_from_slice(b"/usr/lib/extension-release.d/extension-release.s-")?;
    append_decimal(&mut text, image)?;
    path_of(alloc, text.as_slice())
}

// The path of a text that is one.
pub(crate) fn path_of(alloc: Global, text: &[u8]) -> Result<Path, OutOfMemory>
    requires { IsPath (path_parts text.now) }
    ensures { IfOk result (λ path. path ≡ path_parts text.now) }
{
    Path::of_names(alloc, &PathRef::of_text(text))
}
