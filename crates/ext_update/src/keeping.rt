// The manifests that the coming host keeps.
ghost use Rattle.std.specs.Prelude.{◌≡◌, ◌++◌, IfOk, OnOk};
ghost use Rattle.ext_host.specs.Touch.{untouched_all};
ghost use Rattle.ext_update.specs.Drafts.{AppendManifests, IsInPathOrder, IsNextWith};

use ext_host::{Held, Host, Manifest, Manifests, copy_of_merged};
use ext_text::{OutOfMemory, Path, SortedPaths};
use ext_tree::Tree;
use ext_updated::manifest_at;
use std::alloc::Global;
use std::mem;

// The host with this tree, without the manifests that are touched, and with those of the resources.
pub(crate) fn next_host(
    alloc: Global,
    host: &Host,
    touched: &SortedPaths,
    resources: &[Path],
    root: Tree<Held>,
) -> Result<Host, OutOfMemory>
    ensures { IfOk result (IsNextWith host.now touched.now resources.now root) }
{
    let lower = host.lower.copy()?;
    let sysext = copy_of_merged(alloc, &host.sysext)?;
    let confext = copy_of_merged(alloc, &host.confext)?;
    let mut next = host.with_trees(root, lower, sysext, confext)?;
    next.touch_all(touched);
    let kept = mem::replace(&mut next.kept, Manifests::new(alloc));
    next.kept = with_resources(alloc, kept, &next.root, resources)?;
    Ok(next)
}

// The manifests, and those of the resources, in path order.
fn with_resources(
    alloc: Global,
    kept: Manifests,
    root: &Tree<Held>,
    resources: &[Path],
) -> Result<Manifests, OutOfMemory>
    ensures { IfOk result (IsInPathOrder kept root.now resources.now) }
{
    let mut manifests = kept.into_vec();
    append_manifests(alloc, &mut manifests, root, resources)?;
    manifests.sort_unstable_by(|a, b| a.path.cmp(&b.path));
    Ok(Manifests::from_vec(manifests))
}

// Appends the manifest of each resource.
fn append_manifests(
    alloc: Global,
    manifests: &mut Vec<Manifest>,
    root: &Tree<Held>,
    resources: &[Path],
) -> Result<(), OutOfMemory>
    ensures { OnOk result (AppendManifests root.now resources.now manifests.old.items manifests.new.items) }
{
    'resources: for path in resources {
        manifests.push(manifest_at(alloc, root, path)?)?;
    }
    Ok(())
}
