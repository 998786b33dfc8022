ghost use Rattle.std.specs.Prelude.{◌≡◌, IfOk};

use crate::depot_path::DepotPath;
use crate::here_text::HereText;
use crate::home::Home;
use ext_text::OutOfMemory;

/// Where the bytes of a file are.
#[derive(Drop)]
pub enum Body {
    /// Here: these bytes.
    Here(HereText),
    /// In a store, at this home.
    Kept(Home),
    /// In the depot, at this path. Only a plan's host has such bodies.
    Depot(DepotPath),
}

impl Body {
    /// An equal body.
    ///
    /// # Errors
    /// `OutOfMemory` alone.
    pub fn copy(&self) -> Result<Body, OutOfMemory>
        ensures { IfOk result (λ copy. copy ≡ self.now) }
    {
        match self {
            Body::Here(text) => Ok(Body::Here(text.copy()?)),
            Body::Kept(home) => Ok(Body::Kept(*home)),
            Body::Depot(path) => Ok(Body::Depot(path.copy()?)),
        }
    }
}
