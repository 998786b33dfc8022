// The least path that may not be written or cut.
ghost use Rattle.std.specs.Prelude.{◌≡◌, [], ◌∷◌, true, slice_get, IfOk};
ghost use Rattle.std.specs.Option.{option_copied};
ghost use Rattle.ext_host.specs.Host.{where_merged};
ghost use Rattle.ext_host.specs.ReadOnly.{IsLeast, IsLesser, IsReadOnlyAt, is_read_only, merged_in};
ghost use Rattle.ext_host.specs.Valid.{IsValidHost};
ghost use Rattle.ext_lines.specs.ByteOrder.{bytes_cmp};

use crate::host::Host;
use ext_text::{Name, Names, OutOfMemory, Path};

/// The least path that may not be written or cut, of those that a change at this path writes or cuts: the path itself, or,
/// where it is the root, the least hierarchy of the merged classes, there or not. [`Host::locks`] says that there is one.
///
/// # Errors
/// `OutOfMemory` alone.
pub fn read_only_at(host: &Host, path: &Path) -> Result<Path, OutOfMemory>
    requires valid { IsValidHost host.now }
    requires locked { is_read_only host.now path.now ≡ true }
    ensures { IfOk result (IsReadOnlyAt host.now path.now) }
{
    if path.is_root() {
        below_root(path, least_merged(host))
    } else {
        path.copy()
    }
}

// The path of the name, which stands directly below the root.
fn below_root(root: &Path, name: &Name) -> Result<Path, OutOfMemory>
    requires { root.now ≡ [] }
    ensures { IfOk result (λ path. path ≡ name.now ∷ []) }
{
    match root.child(name) {
        Ok(path) => Ok(path),
        // One name is within the limits of a path, so nothing else comes.
        Err(_) => Err(OutOfMemory),
    }
}

// The least hierarchy of the merged classes, of which there is one.
fn least_merged(host: &Host) -> &Name
    requires valid { IsValidHost host.now }
    requires locked { is_read_only host.now [] ≡ true }
    ensures { IsLeast bytes_cmp (merged_in host.now) result.now }
{
    let sysext = first_merged(&host.sysext, &host.sysext_hier);
    let confext = first_merged(&host.confext, &host.confext_hier);
    match (sysext, confext) {
        (Some(a), Some(b)) => lesser(a, b),
        (Some(a), None) => a,
        (None, Some(b)) => b,
        (None, None) => unreachable!(),
    }
}

// The first hierarchy of a class, where it is merged.
fn first_merged<'a>(merged: &Option<Names>, hierarchies: &'a Names) -> Option<&'a Name>
    ensures { option_copied result ≡ slice_get (where_merged merged.now hierarchies.now) 0 }
{
    match merged {
        None => None,
        Some(_) => hierarchies.as_slice().first(),
    }
}

// The one that comes first in the order of bytes.
fn lesser<'a>(a: &'a Name, b: &'a Name) -> &'a Name
    ensures { IsLesser a.now b.now result.now }
{
    if a.bytes().cmp(b.bytes()).is_gt() {
        b
    } else {
        a
    }
}
