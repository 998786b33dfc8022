// The manifests that a change leaves.
ghost use Rattle.std.specs.Prelude.{◌≡◌, not};
ghost use Rattle.ext_text.specs.Path.{are_related};
ghost use Rattle.ext_text.specs.SortedPaths.{meets};
ghost use Rattle.ext_host.specs.Touch.{untouched, untouched_all};

use crate::Manifests;
use crate::host::Host;
use crate::manifest::Manifest;
use ext_text::{Path, SortedPaths};
use std::mem;

impl Host {
    /// Drops each manifest whose path is at, above or below this one. The others stay in their order, and so does all
    /// else. A command that writes or cuts at a path calls it first. It takes no memory.
    pub fn touch(&mut self, path: &Path)
        ensures { self.new ≡ record self.old { kept = untouched path.now self.old.kept } }
    {
        let none = Manifests::new(self.root.allocator());
        let kept = mem::replace(&mut self.kept, none);
        self.kept = untouched(kept, path);
    }

    /// Drops each manifest whose path is at, above or below one of these: what touching them one after the other leaves,
    /// in one pass with a search for each manifest. It takes no memory.
    pub fn touch_all(&mut self, paths: &SortedPaths)
        ensures { self.new ≡ record self.old { kept = untouched_all paths.now self.old.kept } }
    {
        let none = Manifests::new(self.root.allocator());
        let kept = mem::replace(&mut self.kept, none);
        self.kept = untouched_all(kept, paths);
    }
}

// The manifests whose paths are neither at, above nor below the path.
fn untouched(manifests: Manifests, path: &Path) -> Manifests
    ensures { result ≡ untouched path.now manifests }
{
    let mut rest = manifests.into_vec();
    rest.retain(|manifest| is_untouched(manifest, path));
    Manifests::from_vec(rest)
}

// Whether the manifest's path is neither at, above nor below the path.
fn is_untouched(manifest: &Manifest, path: &Path) -> bool
    ensures { result ≡ not (are_related manifest.now.path path.now) }
{
    !manifest.path.is_related(path)
}

// The manifests whose paths are neither at, above nor below one of the paths.
fn untouched_all(manifests: Manifests, paths: &SortedPaths) -> Manifests
    ensures { result ≡ untouched_all paths.now manifests }
{
    let mut rest = manifests.into_vec();
    rest.retain(|manifest| is_untouched_by_all(manifest, paths));
    Manifests::from_vec(rest)
}

// Whether the manifest's path is neither at, above nor below one of the paths.
fn is_untouched_by_all(manifest: &Manifest, paths: &SortedPaths) -> bool
    ensures { result ≡ not (meets paths.now manifest.now.path) }
{
    !paths.meets(&manifest.path.names())
}
