// The hierarchies of a class, and whether it is merged.
ghost use Rattle.std.specs.Prelude.{◌≡◌};
ghost use Rattle.ext_view.specs.Hierarchies.{hierarchies_at, is_merged};

use ext_host::Host;
use ext_text::{Extension, Names};

/// The hierarchies of the class in a host: names directly below the root.
pub fn hierarchies_of(host: &Host, class: Extension) -> &Names
    ensures { result.now ≡ hierarchies_at class host.now }
{
    match class {
        Extension::Sysext => &host.sysext_hier,
        Extension::Confext => &host.confext_hier,
    }
}

// Whether the class is merged.
pub(crate) fn is_merged(host: &Host, class: Extension) -> bool
    ensures { result ≡ is_merged class host.now }
{
    match class {
        Extension::Sysext => host.sysext.is_some(),
        Extension::Confext => host.confext.is_some(),
    }
}
