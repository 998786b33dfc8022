ghost use Rattle.std.specs.Prelude.{◌≡◌, []};
ghost use Rattle.ext_store_files.specs.Names.{current_path, next_path};

use crate::opened::Opened;
use ext_text::Path;
use std::marker::Model;

/// A change that is ready in a store: all of the coming generation stands there, and `next` names it. Contracts see it as that
/// generation. It holds what a switch needs, so that a switch takes no memory.
pub struct Prepared {
    pub(crate) opened: Opened,
    pub(crate) folder: Path,
    pub(crate) next: Path,
    pub(crate) current: Path,
}

impl Model for Prepared {
    ghost use Rattle.ext_gen.specs.Committing.{HasPaths};
    ghost use Rattle.ext_gen.specs.Opened.{Generation};

    ghost Value = { Generation };

    ghost view = { λ p. p.opened };

    ghost invariant = { λ p. HasPaths p.folder p.next p.current };
}

impl Drop for Prepared {
    fn drop(self) {
        let Prepared {
            opened: _,
            folder: _,
            next: _,
            current: _,
        } = self;
    }
}

impl Prepared {
    /// What is prepared, with the paths of the store folder, of `next` and of `current`.
    pub(crate) fn new(opened: Opened, folder: Path, next: Path, current: Path) -> Prepared
        requires folder { folder ≡ [] }
        requires next { next ≡ next_path }
        requires current { current ≡ current_path }
        ensures { result ≡ opened }
    {
        Prepared {
            opened,
            folder,
            next,
            current,
        }
    }

    /// The generation, taken out.
    pub(crate) fn into_opened(self) -> Opened
        ensures { result ≡ self }
    {
        let Prepared {
            opened,
            folder: _,
            next: _,
            current: _,
        } = self;
        opened
    }
}
