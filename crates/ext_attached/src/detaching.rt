ghost use Rattle.std.specs.Prelude.{IfOk};
ghost use Rattle.ext_host.specs.Planning.{IsPlannedHost};
ghost use Rattle.ext_host.specs.Valid.{IsValidHost};
ghost use Rattle.ext_attached.specs.Detaching.{Detaches, IsAttached};
ghost use Rattle.ext_attached.specs.Going.{AreCutPaths};
ghost use Rattle.ext_attached.specs.declared.going.By.TheVariants.{Name};

use crate::detached::detached;
use crate::errors::DetachErr;
use crate::going::{By, paths_of_gone, some_goes};
use crate::least::least_locked;
use ext_host::{Host, Plan};
use ext_text::SortedPaths;
use std::alloc::Global;

/// The plan of the host without the attachment of this name: all that stands at and below the paths that it added goes, with the
/// manifests that are related to one of them, and the attachment. Directories that were made above them stay. After portablectl(1),
/// command `detach`.
///
/// # Errors
/// The first of these:
///
/// - `NotAttached` exactly where no attachment has the name.
/// - `ReadOnly` with the least path that it added and that is in, at or above a merged hierarchy.
/// - `OutOfMemory`.
pub fn detach(alloc: Global, host: &Host, name: &[u8]) -> Result<Plan, DetachErr>
    requires { IsValidHost host.now }
    ensures gives { Detaches host.now name.now result }
    ensures next { IfOk result (λ plan. IsPlannedHost host.now plan.next) }
{
    let attached = host.attached.as_slice();
    if !some_goes(By::Name, name, attached) {
        return Err(DetachErr::NotAttached);
    }
    let paths = paths_of_gone(alloc, By::Name, name, attached)?;
    let cut = SortedPaths::of(paths.into_vec());
    detach_paths(alloc, host, name, &cut)
}

// The plan of the host without the attachment of this name, which added these paths.
fn detach_paths(
    alloc: Global,
    host: &Host,
    name: &[u8],
    cut: &SortedPaths,
) -> Result<Plan, DetachErr>
    requires attached { IsAttached host.now name.now }
    requires cut { AreCutPaths Name name.now host.now cut.now }
    ensures { Detaches host.now name.now result }
{
    match least_locked(host, cut) {
        Some(path) => {
            let path = path.copy()?;
            Err(DetachErr::ReadOnly { path })
        }
        None => {
            let next = detached(alloc, host, By::Name, name, cut)?;
            Ok(Plan { next })
        }
    }
}
