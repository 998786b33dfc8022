// The path of the release file of an extension inside its image.
ghost use Rattle.std.specs.Prelude.{◌≡◌, IfOk};
ghost use Rattle.ext_text.specs.declared.extension.Extension.TheVariants.{Sysext};
ghost use Rattle.ext_find.specs.ExtensionRelease.{release_text};

use ext_text::OutOfMemory;
use std::alloc::Global;

// `usr/lib/extension-release.d/extension-release.NAME`.
pub(crate) fn release_text(alloc: Global, name: &[u8]) -> Result<Vec<u8>, OutOfMemory>
    ensures { IfOk result (λ text. text.items ≡ release_text Sysext name.now) }
{
    let mut text = Vec::new(alloc);
    text.extend_from_slice(b"usr/lib/extension-release.d/extension-release.")?;
    text.extend_from_slice(name)?;
    Ok(text)
}
