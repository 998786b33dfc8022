ghost use Rattle.std.specs.Prelude.{◌≡◌};
ghost use Rattle.ext_published.specs.Asked.{IsPublishAsk};
ghost use Rattle.ext_published.specs.Names.{tree_text_name};

use ext_text::{Name, Path};
use std::marker::Model;

/// What is asked of a run: the path on the host of what is published, the folder of the depot, and the name that it gets
/// there. Contracts see it as a record of the three.
#[derive(Drop)]
pub struct Asked {
    path: Path,
    folder: Path,
    name: Name,
    tree_text: Name,
}

impl Model for Asked {
    ghost use Rattle.std.specs.Prelude.{◌≡◌};
    ghost use Rattle.ext_published.specs.Asked.{AskedOf, IsPublishAsk};
    ghost use Rattle.ext_published.specs.Names.{tree_text_name};

    ghost Value = { AskedOf };

    ghost view = { λ a. record { path = a.path; folder = a.folder; name = a.name } };

    ghost invariant = { λ a. IsPublishAsk (record { path = a.path; folder = a.folder; name = a.name })
        × (a.tree_text ≡ tree_text_name a.name) };
}

impl Asked {
    // What is asked by these, with the name of the tree text.
    pub(crate) fn new(path: Path, folder: Path, name: Name, tree_text: Name) -> Asked
        requires asked { IsPublishAsk (record { path = path; folder = folder; name = name }) }
        requires text { tree_text ≡ tree_text_name name }
        ensures { result ≡ record { path = path; folder = folder; name = name } }
    {
        Asked {
            path,
            folder,
            name,
            tree_text,
        }
    }

    /// The path on the host of what is published.
    pub fn path(&self) -> &Path
        ensures same { result.now ≡ self.now.path }
        ensures asked { IsPublishAsk self.now }
    {
        &self.path
    }

    /// The folder of the depot, a path other than the root.
    pub fn folder(&self) -> &Path
        ensures same { result.now ≡ self.now.folder }
        ensures asked { IsPublishAsk self.now }
    {
        &self.folder
    }

    /// The name of the resource in that folder.
    pub fn name(&self) -> &Name
        ensures same { result.now ≡ self.now.name }
        ensures asked { IsPublishAsk self.now }
    {
        &self.name
    }

    /// The name of its tree text: `.tree` stands after its own.
    pub fn tree_text_name(&self) -> &Name
        ensures { result.now ≡ tree_text_name self.now.name }
    {
        &self.tree_text
    }
}
