ghost use Rattle.std.specs.Prelude.{◌≡◌, IfOk};
ghost use Rattle.std.specs.List.{list_any};
ghost use Rattle.ext_host.specs.Planning.{IsPlannedHost};
ghost use Rattle.ext_host.specs.Valid.{IsValidHost};
ghost use Rattle.ext_attached.specs.Going.{goes_for, paths_without, without};

use crate::detached::detached;
use crate::going::{By, paths_of_gone, some_goes};
use ext_host::Host;
use ext_text::{OutOfMemory, Paths, SortedPaths};
use ext_units::{Image, first_part};
use std::alloc::Global;

/// The host without every attachment whose name, up to its first `_`, is that of the image up to its first `_`: the host in which
/// an image is looked for that is attached anew. Whether their paths may be written is not looked at. After portablectl(1),
/// command `reattach`.
///
/// # Errors
/// `OutOfMemory` alone.
pub fn without(alloc: Global, host: &Host, image: &Image) -> Result<Host, OutOfMemory>
    requires { IsValidHost host.now }
    ensures gives { IfOk result (λ next. next ≡ without image.now host.now) }
    ensures next { IfOk result (IsPlannedHost host.now) }
{
    let paths = paths_without(alloc, host, image)?;
    let cut = SortedPaths::of(paths.into_vec());
    detached(alloc, host, By::FirstPart, first_part(image.name()), &cut)
}

/// The paths that these attachments added, in the order of the attachments.
///
/// # Errors
/// `OutOfMemory` alone.
pub fn paths_without(alloc: Global, host: &Host, image: &Image) -> Result<Paths, OutOfMemory>
    ensures { IfOk result (λ paths. paths ≡ paths_without image.now host.now) }
{
    let text = first_part(image.name());
    paths_of_gone(alloc, By::FirstPart, text, host.attached.as_slice())
}

/// Whether there is such an attachment.
pub fn has_earlier(host: &Host, image: &Image) -> bool
    ensures { result ≡ list_any (goes_for image.now) host.now.attached }
{
    let text = first_part(image.name());
    some_goes(By::FirstPart, text, host.attached.as_slice())
}
