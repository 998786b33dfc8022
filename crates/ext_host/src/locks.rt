// Which paths a merge locks.
ghost use Rattle.std.specs.Prelude.{◌≡◌, [], ◌∷◌};
ghost use Rattle.std.specs.Ordering.{eq_by_cmp};
ghost use Rattle.ext_lines.specs.ByteOrder.{bytes_cmp};
ghost use Rattle.ext_text.specs.Path.{are_related};
ghost use Rattle.ext_host.specs.Host.{hierarchies_in, merged_hierarchies, present};
ghost use Rattle.ext_host.specs.Locks.{locks};

use crate::host::Host;
use ext_text::{Name, Path};

impl Host {
    /// Whether the path is in, at or above a hierarchy of a merged class. It takes no memory.
    pub fn locks(&self, path: &Path) -> bool
        ensures { result ≡ locks (merged_hierarchies (hierarchies_in self.now) (present self.now)) path.now }
    {
        (self.sysext.is_some() && lock(self.sysext_hier.as_slice(), path))
            || (self.confext.is_some() && lock(self.confext_hier.as_slice(), path))
    }
}

// Whether the path is in, at or above one of the names.
fn lock(names: &[Name], path: &Path) -> bool
    ensures { result ≡ locks names.now path.now }
{
    names.iter().any(|name| locks_alone(name, path))
}

// Whether the path is in, at or above the name.
fn locks_alone(name: &Name, path: &Path) -> bool
    ensures { result ≡ are_related (name.now ∷ []) path.now }
{
    match path.names().split_first() {
        None => true,
        Some((first, _below)) => is_equal(name, first),
    }
}

fn is_equal(name: &Name, other: &[u8]) -> bool
    ensures { result ≡ eq_by_cmp bytes_cmp name.now other.now }
{
    name.bytes().cmp(other).is_eq()
}
