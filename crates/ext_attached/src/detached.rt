// The host without some of its attachments.
ghost use Rattle.std.specs.Prelude.{◌≡◌, IfOk};
ghost use Rattle.ext_tree.specs.Cut.{cut_all};
ghost use Rattle.ext_host.specs.Touch.{untouched_all};
ghost use Rattle.ext_attached.specs.Going.{AreCutPaths, detached};

use crate::going::{By, staying};
use ext_host::{Attachments, Host, copy_of_merged};
use ext_text::{OutOfMemory, SortedPaths};
use ext_updated::copy_without;
use std::alloc::Global;

// The host without the attachments that go, whose paths these are.
pub(crate) fn detached(
    alloc: Global,
    host: &Host,
    by: By,
    text: &[u8],
    cut: &SortedPaths,
) -> Result<Host, OutOfMemory>
    requires { AreCutPaths by text.now host.now cut.now }
    ensures { IfOk result (λ next. next ≡ detached by text.now host.now) }
{
    let attached = staying(alloc, by, text, host.attached.as_slice())?;
    cut_host(alloc, host, attached, cut)
}

// The host with these attachments, and without what stands at and below the paths.
fn cut_host(
    alloc: Global,
    host: &Host,
    attached: Attachments,
    cut: &SortedPaths,
) -> Result<Host, OutOfMemory>
    ensures { IfOk result (λ next. next ≡ record host.now {
      root = cut_all cut.now host.now.root;
      attached = attached;
      kept = untouched_all cut.now host.now.kept;
    }) }
{
    let root = copy_without(alloc, &host.root, cut)?;
    let lower = host.lower.copy()?;
    let sysext = copy_of_merged(alloc, &host.sysext)?;
    let confext = copy_of_merged(alloc, &host.confext)?;
    let mut next = host.with_trees(root, lower, sysext, confext)?;
    next.touch_all(cut);
    next.attached = attached;
    Ok(next)
}
