// Where the release file of an extension is looked for.
ghost use Rattle.std.specs.Prelude.{◌≡◌, IfOk};
ghost use Rattle.ext_find.specs.ExtensionRelease.{release_text};

use crate::leading::joined;
use ext_text::{Extension, Name, OutOfMemory};
use std::alloc::Global;

// Where the release file of the extension of this name is looked for inside its image, as a path that links may lead on:
// `usr/lib/extension-release.d/extension-release.NAME` of a system extension, and
// `etc/extension-release.d/extension-release.NAME` of a configuration extension. After systemd-sysext(8).
pub(crate) fn release_text(
    alloc: Global,
    class: Extension,
    name: &Name,
) -> Result<Vec<u8>, OutOfMemory>
    ensures { IfOk result (λ text. text.items ≡ release_text class name.now) }
{
    match class {
        Extension::Sysext => joined(
            alloc,
            b"usr/lib/extension-release.d/extension-release.",
            name.bytes(),
        ),
        Extension::Confext => joined(
            alloc,
            b"etc/extension-release.d/extension-release.",
            name.bytes(),
        ),
    }
}
