// What an update writes, before it is known whether it fits.
ghost use Rattle.std.specs.Prelude.{◌≡◌, IfOk};

use ext_resources::Content;
use ext_text::{Mode, Name, OutOfMemory, Path};

// What an update writes.
#[derive(Drop)]
pub(crate) struct Draft {
    // The resources.
    pub(crate) arrivals: Vec<Arrival>,
    // The links, which are set after them.
    pub(crate) links: Vec<CurrentLink>,
}

// A resource that comes, and where it goes.
#[derive(Drop)]
pub(crate) struct Arrival {
    // The target.
    pub(crate) target: Path,
    // Its name in the target. Both together may pass the limits of a path.
    pub(crate) name: Name,
    // The mode of a file.
    pub(crate) mode: Mode,
    // Where it stands in the depot.
    pub(crate) source: Path,
    // What it is.
    pub(crate) content: Content,
}

// A link that is set to the current version.
#[derive(Drop)]
pub(crate) struct CurrentLink {
    // Where it is set.
    pub(crate) path: Path,
    // The target of its transfer.
    pub(crate) target: Path,
    // What it names.
    pub(crate) current: Current,
}

// What a link to the current version names.
#[derive(Drop)]
pub(crate) enum Current {
    // An instance that the target has, by its path.
    Had(Path),
    // The resource that is written into the target, by its name.
    Written(Name),
}

impl Current {
    // An equal value.
    pub(crate) fn copy(&self) -> Result<Current, OutOfMemory>
        ensures { IfOk result (λ copy. copy ≡ self.now) }
    {
        match self {
            Current::Had(path) => Ok(Current::Had(path.copy()?)),
            Current::Written(name) => Ok(Current::Written(name.copy()?)),
        }
    }
}
