ghost use Rattle.std.specs.Prelude.{◌≡◌};
ghost use Rattle.ext_cmd.specs.Resource.{IsResource, tree_path};

use ext_text::Path;
use std::marker::Model;

/// A tree in the depot: its text is the file `RES.tree`, the bytes of its files are the files below `RES`. Contracts see
/// it as the path `RES`, which isn't the root.
#[derive(Drop)]
pub struct Resource {
    path: Path,
    text: Path,
}

impl Model for Resource {
    ghost use Rattle.std.specs.Prelude.{◌≡◌, List, ℕ};
    ghost use Rattle.ext_cmd.specs.Resource.{IsResource, tree_path};

    ghost Value = { List (List ℕ) };

    ghost view = { λ r. r.path };

    ghost invariant = { λ r. IsResource r.path × (r.text ≡ tree_path r.path) };
}

impl Resource {
    // The resource of a path and of the path of its tree text.
    pub(crate) fn new(path: Path, text: Path) -> Resource
        requires resource { IsResource path }
        requires text { text ≡ tree_path path }
        ensures { result ≡ path }
    {
        Resource { path, text }
    }

    /// The path below which its files stand.
    pub fn path(&self) -> &Path
        ensures same { result.now ≡ self.now }
        ensures resource { IsResource self.now }
    {
        &self.path
    }

    /// The path of its tree text: `.tree` stands after the last name.
    pub fn tree_text(&self) -> &Path
        ensures { result.now ≡ tree_path self.now }
    {
        &self.text
    }
}
